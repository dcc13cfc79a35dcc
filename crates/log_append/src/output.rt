// The octets of a record, put at a place of a buffer.
ghost use Rattle.std.specs.Prelude.{◌++◌, ◌≡◌, ◌+◌, ◌≤◌, ◌<◌, length};
ghost use Rattle.octets.specs.Put.{Put, put_place, put_output};
ghost use Rattle.log_record.specs.Kind.{kind_number};
ghost use Rattle.log_record.specs.Record.{time_octets, kind_octet, trailer, record_octets};

use log_record::{RecordKind, TIMED};

// The time, if there is one, and the trailer of a record of n octets. As with `octets::put`, answers the place behind them,
// or the place itself where they do not fit.
#[tactic(auto, using(log_record::proofs::KindNumbers::number_known), unfolding(log_record::specs::Record::time_octets, log_record::specs::Record::kind_octet))]
fn put_behind(kind: RecordKind, time: Option<u32>, n: usize, buffer: &mut [u8], at: usize) -> usize
    requires { n < 65536 }
    ensures value { result ≡ put_place (time_octets time ++ trailer (kind_octet (kind_number kind) time) n) buffer.old at }
    ensures output { buffer.new
        ≡ put_output (time_octets time ++ trailer (kind_octet (kind_number kind) time) n) buffer.old at }
{
    let kind = u8::from(kind);
    let [.., high, low] = n.to_be_bytes();
    match time {
        Some(second) => {
            let [a, b, c, d] = octets::high_first_4(second);
            octets::put(&[a, b, c, d, kind + TIMED, high, low], buffer, at)
        }
        None => octets::put(&[kind, high, low], buffer, at),
    }
}

// The record's octets, its time and its trailer. Answers the place behind them.
pub(crate) fn put_record(
    kind: RecordKind,
    time: Option<u32>,
    payload: &[u8],
    buffer: &mut [u8],
    at: usize,
) -> usize
    requires { (length payload.now < 65536)
        × (at + (length payload.now + (length (time_octets time) + 3)) ≤ length buffer.old) }
    ensures { Put (record_octets (kind_number kind) time payload.now) buffer.old at buffer.new result }
{
    let n = payload.len();
    let behind = octets::put(payload, buffer, at);
    put_behind(kind, time, n, buffer, behind)
}
