// The calls: tools/model/calls.py says what their lines hold.
ghost use Rattle.std.specs.Prelude.{◌≡◌, length};
ghost use Rattle.io.specs.Counts.{IsPrefixLen};

use crate::answers;
use replay_cases::{input, print};
use std::io::Read;

// Answers the call whose letter was read.
pub(crate) fn answer<R: Read, P: Print>(from: &mut R, to: &P, letter: u8, buffer: &mut [u8]) {
    answer_to(from, to, letter, buffer);
    input::letter(from);
    print::letters(to, b"\n");
}

// Answers a call by its letter.
fn answer_to<R: Read, P: Print>(from: &mut R, to: &P, letter: u8, buffer: &mut [u8]) {
    match letter {
        b'A' => append(from, to, buffer),
        b'R' => read(to, buffer, input::long_number(from)),
        b'C' => answers::print_counted(
            to,
            log_reading::count_records(buffer, input::long_number(from)),
        ),
        b'B' => print::octets(to, buffer, buffer.len()),
        _ => print::letters(to, b"no call"),
    }
}

// Room for the longest payload. The `ensures` gives what lending it as a slice needs.
fn space() -> [u8; 1520]
    ensures { 1520 ≡ length result }
{
    [0; 1520]
}

// Reads a count and a first octet, puts so many octets counting up from it, 00 behind FF, at the front of `out`, as far
// as there is room, and answers how many there are.
fn payload<R: Read>(from: &mut R, out: &mut [u8]) -> usize
    ensures { IsPrefixLen result out.new }
{
    let n = input::number(from).min(out.len());
    let mut next = input::octet(from);
    for octet in &mut out[..n] {
        *octet = next;
        next = next.wrapping_add(1);
    }
    n
}

// Reads a time: a second behind the letter T, or another letter, which is no time.
fn time<R: Read>(from: &mut R) -> Option<u32> {
    match input::letter(from) {
        b'T' => Some(input::long_number(from) as u32),
        _ => None,
    }
}

// Appends a record.
fn append<R: Read, P: Print>(from: &mut R, to: &P, buffer: &mut [u8]) {
    let used = input::long_number(from);
    let kind = input::octet(from);
    let time = time(from);
    let mut octets = space();
    let n = payload(from, &mut octets);
    print::count(
        to,
        b"U",
        log_append::append(buffer, used, kind, time, &octets[..n]).map_err(u8::from),
    );
}

// Reads the record that ends at an end, and its payload.
fn read<P: Print>(to: &P, log: &[u8], end: usize) {
    answers::print_read(
        to,
        log_record::read_record(log, end),
        log_record::record_payload(log, end),
    );
}
