// Results as arrays of numbers, for callers in other languages.
ghost use Rattle.std.specs.Prelude.{◌≡◌, Some, IfSome};
ghost use Rattle.numbers.specs.Layout.{
  layout_version,
  header_numbers,
  bvlc_numbers,
  record_numbers,
  count_numbers,
};
ghost use Rattle.numbers.specs.State.{state_numbers, state_of};

use bip_header::BvlcHeader;
use log_record::LogRecord;
use mstp_decode::MstpHeader;
use mstp_frame::MSTP_HEADER_SIZE;
use padding::PaddingState;
use statistics::FrameStatistics;

// The version of the layout, raised whenever what a caller lends changes, or which number stands where.
pub fn layout_version() -> u32
    ensures { result ≡ layout_version }
{
    3
}

// The numbers of an MS/TP header: type, destination, source, header check, 1 if there is a data check else 0, data check
// or 0, the place of the data in the frame, how many they are.
#[tactic(auto, unfolding(crate::specs::Layout::header_numbers))]
pub fn header_numbers(header: MstpHeader) -> [usize; 8]
    ensures { result ≡ header_numbers header }
{
    [
        usize::from(u8::from(header.frame_type)),
        usize::from(header.destination),
        usize::from(header.source),
        usize::from(header.header_crc),
        usize::from(header.data_crc.is_some()),
        usize::from(header.data_crc.unwrap_or(0)),
        MSTP_HEADER_SIZE,
        usize::from(header.data_length),
    ]
}

// The numbers of statistics beside the distribution: octets 00, octets of 80 or more, octet, length and start of the longest
// run.
#[tactic(auto, unfolding(crate::specs::Layout::count_numbers))]
pub fn count_numbers(statistics: FrameStatistics) -> [usize; 5]
    ensures { result ≡ count_numbers statistics }
{
    let run = statistics.longest_run;
    [
        statistics.null_bytes,
        statistics.high_bytes,
        usize::from(run.octet),
        run.length,
        run.start,
    ]
}

// The numbers of a BVLC header: function and length.
pub fn bvlc_numbers(header: BvlcHeader) -> [usize; 2]
    ensures { result ≡ bvlc_numbers header }
{
    [
        usize::from(u8::from(header.function)),
        usize::from(header.length),
    ]
}

// The numbers of a record of a log: kind, place of its first octet, how many octets it has, 1 if there is a time else 0,
// the second or 0.
pub fn record_numbers(record: LogRecord) -> [usize; 5]
    ensures { result ≡ record_numbers «record» }
{
    [
        usize::from(u8::from(record.kind)),
        record.start,
        record.length,
        usize::from(record.time.is_some()),
        record.time.unwrap_or(0) as usize,
    ]
}

// The numbers of a state of the search for padding: 1 if an octet came yet else 0, the last octet, its run. They name this
// state.
#[tactic(auto, unfolding(crate::specs::State::state_of))]
pub fn state_numbers(state: PaddingState) -> [usize; 3]
    ensures value { result ≡ state_numbers state }
    ensures back { state_of result ≡ Some state }
{
    [
        octets::one_if(state.started),
        usize::from(state.last),
        state.run,
    ]
}

// The state that three numbers name, of which they are the numbers. The first is 0 or 1 and the second an octet, or they
// name none.
#[tactic(auto, unfolding(crate::specs::State::state_of))]
pub fn state_of(numbers: [usize; 3]) -> Option<PaddingState>
    ensures value { result ≡ state_of numbers }
    ensures back { IfSome result (λ a. numbers ≡ state_numbers a) }
{
    let [started, last, run] = numbers;
    if 1 < started {
        return None;
    }
    let Ok(last) = u8::try_from(last) else {
        return None;
    };
    Some(PaddingState {
        started: started == 1,
        last,
        run,
    })
}
