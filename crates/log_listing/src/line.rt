// A line for a record, and the last line.
ghost use Rattle.std.specs.Prelude.{◌≡◌, ◌+◌, ◌≤◌, length};
ghost use Rattle.octets.specs.Put.{Put, put_place, put_output};
ghost use Rattle.log_record.specs.Kind.{kind_number};
ghost use Rattle.log_listing.specs.Listing.{valid, frames, time_field, record_line, last_line};

use crc::CheckRule;
use log_record::{LogRecord, RecordKind};
use octets::Refusal;

// Whether the validator of a record's kind is content.
#[tactic(auto, unfolding(crate::specs::Listing::valid))]
fn valid(kind: RecordKind, payload: &[u8]) -> bool
    ensures { result ≡ valid (kind_number kind) payload.now }
{
    match kind {
        RecordKind::Bus => {
            validation_mstp::validate_mstp_frame(CheckRule::AnnexG, payload).is_valid
        }
        RecordKind::Ip => validation_ip::validate_bacnet_ip_frame(payload).is_valid,
        RecordKind::Ethernet => validation_ethernet::validate_ethernet_frame(payload).is_valid,
    }
}

// How many frames a whole reading of a bus record finds; 0 for the other kinds.
#[tactic(auto, using(crate::proofs::Records::counted), unfolding(crate::specs::Listing::frames))]
fn frames(kind: RecordKind, payload: &[u8]) -> usize
    requires { length payload.now ≤ 1514 }
    ensures { result ≡ frames (kind_number kind) payload.now }
{
    match kind {
        RecordKind::Bus => run_reading::count_frames(CheckRule::AnnexG, payload).unwrap_or(0),
        RecordKind::Ip | RecordKind::Ethernet => 0,
    }
}

// The field of a time: the second, or `-`. As with `octets::put`, answers the place behind it, or the place itself where it
// does not fit.
#[tactic(auto, unfolding(crate::specs::Listing::time_field))]
fn put_time(time: Option<u32>, out: &mut [u8], at: usize) -> usize
    ensures value { result ≡ put_place (time_field time) out.old at }
    ensures output { out.new ≡ put_output (time_field time) out.old at }
{
    match time {
        Some(second) => text::put_field(second as usize, out, at),
        None => octets::put(b" -", out, at),
    }
}

// A record's line: `record`, its kind, its length, 1 if valid else 0, its frames, when it was made.
pub(crate) fn put_record_line(record: LogRecord, payload: &[u8], out: &mut [u8], at: usize) -> usize
    requires { (length payload.now ≤ 1514) × (at + length (record_line (kind_number «record».kind) «record».time payload.now) ≤ length out.old) }
    ensures { Put (record_line (kind_number «record».kind) «record».time payload.now) out.old at out.new result }
{
    let kind = record.kind;
    let valid = valid(kind, payload);
    let frames = frames(kind, payload);
    let behind = octets::put(b"record", out, at);
    let behind = text::put_field(usize::from(u8::from(kind)), out, behind);
    let behind = text::put_field(payload.len(), out, behind);
    let behind = text::put_field(usize::from(valid), out, behind);
    let behind = text::put_field(frames, out, behind);
    let behind = put_time(record.time, out, behind);
    octets::put(b"\n", out, behind)
}

// The last line where a question stopped the reading.
pub(crate) fn put_stopped(refusal: Refusal, out: &mut [u8], at: usize) -> usize
    requires { at + length (last_line (Err refusal)) ≤ length out.old }
    ensures { Put (last_line (Err refusal)) out.old at out.new result }
{
    let behind = octets::put(b"stopped", out, at);
    let behind = text::put_field(usize::from(u8::from(refusal)), out, behind);
    octets::put(b"\n", out, behind)
}
