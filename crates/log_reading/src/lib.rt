// The whole reading of a log, back from an end to its start or to the first question that fails.
#![tactic(auto)]

mod records;

ghost use Rattle.std.specs.Prelude.{◌≡◌};
ghost use Rattle.log_reading.specs.Reading.{count_answer, CountsBack};
ghost use Rattle.log_reading.specs.Written.{ReadsWritten};
ghost use Rattle.log_reading.specs.Torn.{ReadsTorn};
ghost use Rattle.log_reading.specs.Example.{Example};
ghost use Rattle.log_reading.specs.Cuts.{cuts, ReadsCuts};

use octets::Refusal;
pub use records::{RecordsBack, records_back};

// What a whole reading answers: how many records there are, and whether the start is reached behind them.
#[derive(Clone, Copy)]
pub struct RecordsCounted {
    pub count: usize,
    pub last: Result<(), Refusal>,
}

// How many records a whole reading back from an end gives, and the answer behind them: that the start is reached, or the
// question that fails. Of a log that was written by appending to an empty buffer these are the records that were taken,
// newest first, and then the start is reached. If such a log has lost octets at its front, they are the records that are
// still whole; then the start is reached if no record is torn, and else 41 or 44 fails.
pub fn count_records(log: &[u8], end: usize) -> RecordsCounted
    ensures value { result ≡ count_answer log.now end }
    ensures calls { CountsBack log.now end result }
    ensures written { ReadsWritten log.now end result }
    ensures torn { ReadsTorn log.now end result }
    ensures example { Example }
    ensures cuts { ReadsCuts cuts }
{
    let mut count: usize = 0;
    for record in records_back(log, end) {
        match record {
            Ok(_) => count += 1,
            Err(refusal) => {
                return RecordsCounted {
                    count,
                    last: Err(refusal),
                };
            }
        }
    }
    RecordsCounted {
        count,
        last: Ok(()),
    }
}
