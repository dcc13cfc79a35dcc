// The records of a log, each with its time, if it has one, its kind and its length behind it: what they are, and reading one
// back from an end.
#![tactic(auto)]

mod kind;

ghost use Rattle.std.specs.Prelude.{◌≡◌, ◌+◌, ◌≤◌, ◌<◌, length};
ghost use Rattle.log_record.specs.Record.{allowed_size, time_octets, time_of};
ghost use Rattle.log_record.specs.Read.{timed, read_before, read_record, payload_in, payload_of, ReadsWhatEnds};

pub use kind::RecordKind;
use octets::Refusal;

// Most octets of a record.
pub const MAX_RECORD_SIZE: usize = 1514;

// By how much the octet of a kind is higher where there is a time.
pub const TIMED: u8 = 10;

// Octets of a second.
const SECOND_SIZE: usize = 4;

// Octets of a trailer: kind and length.
pub const TRAILER_SIZE: usize = 3;

// A record of a log: its kind, the second when it was made, of 32 bits, if it has a time, the place of its first octet, and
// how many octets it has.
#[derive(Clone, Copy)]
pub struct LogRecord {
    pub kind: RecordKind,
    pub time: Option<u32>,
    pub start: usize,
    pub length: usize,
}

// Whether a record may have that many octets.
#[tactic(auto, unfolding(octets::specs::Range::within))]
pub fn allowed_size(n: usize) -> bool
    ensures { result ≡ allowed_size n }
{
    1 <= n && n <= MAX_RECORD_SIZE
}

// How many octets a time has in a log.
#[tactic(auto, unfolding(crate::specs::Record::time_octets))]
pub fn time_size(time: Option<u32>) -> usize
    ensures { result ≡ length (time_octets time) }
{
    match time {
        Some(_) => SECOND_SIZE,
        None => 0,
    }
}

// Whether the octet of a kind says that there is a time: it is 0B, 0C or 0D.
fn timed(octet: u8) -> bool
    ensures { result ≡ timed octet }
{
    octets::within(0x0B, 0x0D, octet)
}

// The time that octets are: the second of four, none of no octets.
#[tactic(auto, unfolding(crate::specs::Record::time_of))]
fn time_of(octets: &[u8]) -> Option<u32>
    ensures { result ≡ time_of octets.now }
{
    match octets {
        &[a, b, c, d] => Some(octets::number4(a, b, c, d)),
        _ => None,
    }
}

// The record whose trailer ends a log, or the first of the questions 41 to 44 that fails.
#[tactic(auto, using(crate::proofs::Read::no_trailer, crate::proofs::KindOctet::ten_most))]
fn last_record(log: &[u8]) -> Result<LogRecord, Refusal>
    ensures { result ≡ read_before log.now (length log.now) }
{
    let Some((before, &[octet, high, low])) = log.split_last_chunk::<TRAILER_SIZE>() else {
        return Err(Refusal::TrailerTorn);
    };
    let (number, time_size) = if timed(octet) {
        (octet - TIMED, SECOND_SIZE)
    } else {
        (octet, 0)
    };
    let kind = RecordKind::try_from(number)?;
    let length = usize::from(octets::number(high, low));
    if !allowed_size(length) {
        return Err(Refusal::RecordSize);
    }
    let Some(start) = before.len().checked_sub(length + time_size) else {
        return Err(Refusal::RecordTorn);
    };
    let time = time_of(&before[start + length..]);
    Ok(LogRecord {
        kind,
        time,
        start,
        length,
    })
}

// The record that ends at an end of the log, that the start is reached (`None`), which is so at end 0 alone, or the question
// that fails. A record is answered exactly where one ends.
#[tactic(auto, using(crate::proofs::Read::beyond))]
pub fn read_record(log: &[u8], end: usize) -> Result<Option<LogRecord>, Refusal>
    ensures value { result ≡ read_record log.now end }
    ensures ends { ReadsWhatEnds log.now end result }
{
    let Some(log) = log.get(..end) else {
        return Err(Refusal::EndBeyondLog);
    };
    if end == 0 {
        return Ok(None);
    }
    Ok(Some(last_record(log)?))
}

// The octets of a record in a log, as a part of it: as many of them as the log has.
pub fn payload_in(log: &[u8], record: LogRecord) -> &[u8]
    ensures { result.now ≡ payload_in log.now «record» }
{
    let rest = log.get(record.start..).unwrap_or(&[]);
    rest.get(..record.length).unwrap_or(rest)
}

// The octets of the record that ends at an end of the log, as a part of it. Empty where `read_record` answers no record.
pub fn record_payload(log: &[u8], end: usize) -> &[u8]
    ensures { result.now ≡ payload_of log.now (read_record log.now end) }
{
    match read_record(log, end) {
        Ok(Some(record)) => payload_in(log, record),
        Ok(None) | Err(_) => &[],
    }
}
