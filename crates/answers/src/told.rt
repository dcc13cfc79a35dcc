// What callers in other languages get of a value: numbers, as lent memory holds them.
ghost use Rattle.std.specs.Prelude.{◌≡◌};
ghost use Rattle.numbers.specs.Layout.{header_numbers, bvlc_numbers, record_numbers};
ghost use Rattle.run_search.specs.Search.{report_numbers};

use bip_header::BvlcHeader;
use log_record::LogRecord;
use mstp_decode::MstpHeader;
use run_search::Report;

// A value that is told as numbers.
pub trait Told: Copy {
    type Numbers: Copy;

    ghost numbers_of: { Self → Self.Numbers };

    // The numbers of a value.
    fn numbers(self) -> Self::Numbers
        ensures { result ≡ numbers_of self };
}

// The header of an MS/TP frame.
impl Told for MstpHeader {
    type Numbers = [usize; 8];

    ghost numbers_of = { header_numbers };

    fn numbers(self) -> [usize; 8] {
        numbers::header_numbers(self)
    }
}

// The header of a BVLC message.
impl Told for BvlcHeader {
    type Numbers = [usize; 2];

    ghost numbers_of = { bvlc_numbers };

    fn numbers(self) -> [usize; 2] {
        numbers::bvlc_numbers(self)
    }
}

// A frame that the finder found: place and octet count.
impl Told for Report {
    type Numbers = [usize; 2];

    ghost numbers_of = { report_numbers };

    fn numbers(self) -> [usize; 2] {
        [self.place, self.count]
    }
}

// A record of a log.
impl Told for LogRecord {
    type Numbers = [usize; 5];

    ghost numbers_of = { record_numbers };

    fn numbers(self) -> [usize; 5] {
        numbers::record_numbers(self)
    }
}

// A count: of the octets written, of entries, of reports, of the octets used.
impl Told for usize {
    type Numbers = usize;

    ghost numbers_of = { λ n. n };

    fn numbers(self) -> usize {
        self
    }
}
