// Appending a record to a log: its octets, then its time, if it has one, its kind and its length.
#![tactic(auto)]

mod output;

ghost use Rattle.std.specs.Prelude.{◌≡◌};
ghost use Rattle.log_append.specs.Append.{append_answer, append_output, ReadsBack};

use log_record::{RecordKind, TRAILER_SIZE};
use octets::Refusal;

// Appends a record behind the first `used` octets of a buffer, touches nothing else, and answers the new used count:
// reading from there gives the record back, and what stood before it reads as before. Or answers the question that
// fails, and writes nothing. (The kind is a number: 42 is answered to one that no kind has.)
#[tactic(auto, using(log_record::proofs::KindOctet::time_few, octets::proofs::Ranges::within_true))]
pub fn append(
    buffer: &mut [u8],
    used: usize,
    kind: u8,
    time: Option<u32>,
    payload: &[u8],
) -> Result<usize, Refusal>
    ensures value { result ≡ append_answer buffer.old used kind time payload.now }
    ensures output { buffer.new ≡ append_output buffer.old used kind time payload.now }
    ensures back { ReadsBack buffer.old used kind time payload.now buffer.new result }
{
    if buffer.len() < used {
        return Err(Refusal::EndBeyondLog);
    }
    let kind = RecordKind::try_from(kind)?;
    let n = payload.len();
    if !log_record::allowed_size(n) {
        return Err(Refusal::RecordSize);
    }
    if buffer.len() - used < n + (log_record::time_size(time) + TRAILER_SIZE) {
        return Err(Refusal::BufferTooShort);
    }
    Ok(output::put_record(kind, time, payload, buffer, used))
}
