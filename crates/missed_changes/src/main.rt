// Changes one header octet of a frame in every way, for 32 frames, and prints each change that is read all the same: first
// under the house rule, then under Annex G's. `of_all` decides the counts. Where it can't be written, standard error has a
// message.
#![tactic(auto)]

ghost use Rattle.std.specs.Prelude.{◌≡◌, ◌+◌, ◌≤◌, ◌<◌, length};
ghost use Rattle.octets.specs.Put.{Put};
ghost use Rattle.mstp_decode.specs.Frame.{encode_frame};
ghost use Rattle.missed_changes.specs.Changes.{of_octet, of_place, of_frame, of_pair, of_type, of_all, Tallies, Fit, Sum};
ghost use Rattle.missed_changes.specs.Text.{spaced, change_line, count_line};

use crc::CheckRule;
use mstp_frame::{MSTP_HEADER_SIZE, MSTP_LAST_TYPE, MstpFrameType};
use std::ops::Add;

// Octets of the longest frame: a header, three data octets and their check.
const FRAME: usize = 13;

// Octets of a change's line: two headers of 23, the words between them and a newline.
const LINE: usize = 56;

// Most octets of a rule's last line, with five digits for each count.
const COUNT_LINE: usize = 35;

// How many changes there were, how many of them were read, and whether the lines of these could be written.
#[derive(Clone, Copy)]
struct Tally {
    changes: usize,
    read: usize,
    // Kept: a flag, and no `Result`, so that `Tallies` holds of every answer.
    written: bool,
}

// A tally with no line to write.
fn counted(changes: usize, read: usize) -> Tally
    ensures { (result.changes ≡ changes) × (result.read ≡ read) }
{
    Tally {
        changes,
        read,
        written: true,
    }
}

// Two tallies as one.
impl Add for Tally {
    type Output = Tally;

    ghost can_add = { λ a b. Fit a b };

    ghost add_gives = { λ a b tally. Sum a b tally };

    fn add(self, other: Tally) -> Tally {
        Tally {
            changes: self.changes + other.changes,
            read: self.read + other.read,
            written: self.written && other.written,
        }
    }
}

// Octets in hexadecimal digits, with a space between two.
fn put_spaced(s: &[u8], out: &mut [u8], at: usize) -> usize
    requires s_nonzero { 0 < length s.now }
    requires s_in_bounds { at + length (spaced s.now) ≤ length out.old }
    ensures { Put (spaced s.now) out.old at out.new result }
{
    let mut behind = text::put_hex_2(s[0], out, at);
    for octet in &s[1..] {
        behind = octets::put(b" ", out, behind);
        behind = text::put_hex_2(*octet, out, behind);
    }
    behind
}

// The line of a change: the header as it was, and as changed.
fn change_line(frame: &[u8], changed: &[u8]) -> [u8; LINE]
    requires { (8 ≤ length frame.now) × (8 ≤ length changed.now) }
    ensures { result ≡ change_line frame.now changed.now }
{
    let mut out = [0u8; LINE];
    let mut behind = put_spaced(&frame[..MSTP_HEADER_SIZE], &mut out, 0);
    behind = octets::put(b" read as ", &mut out, behind);
    behind = put_spaced(&changed[..MSTP_HEADER_SIZE], &mut out, behind);
    octets::put(b"\n", &mut out, behind);
    out
}

// Reads changed frames under a rule, and prints the changes that are read.
#[derive_where(Clone, Copy)]
struct Reader<'a, P> {
    to: &'a P,
    rule: CheckRule,
}

impl<P: Print> Reader<'_, P> {
    // Puts an octet at a place of a frame. Prints the change, where it is one, if it is read.
    fn change(&self, frame: &[u8], place: usize, octet: u8) -> Tally
        requires { (place < length frame.now) × (8 ≤ length frame.now) × (length frame.now ≤ 13) }
        ensures { Tallies self.now.rule (λ test. of_octet test frame.now place octet) result }
    {
        if frame[place] == octet {
            return counted(0, 0);
        }
        let mut memory = [0u8; FRAME];
        let changed = &mut memory[..frame.len()];
        changed.copy_from_slice(frame);
        changed[place] = octet;
        if mstp_decode::decode(self.rule, changed).is_err() {
            return counted(1, 0);
        }
        let line = change_line(frame, changed);
        Tally {
            changes: 1,
            read: 1,
            written: self.to.write_all(&line).is_ok(),
        }
    }

    // Every octet at a place.
    fn change_place(&self, frame: &[u8], place: usize) -> Tally
        requires { (place < length frame.now) × (8 ≤ length frame.now) × (length frame.now ≤ 13) }
        ensures { Tallies self.now.rule (λ test. of_place test frame.now place) result }
    {
        let mut tally = counted(0, 0);
        for octet in 0..=u8::MAX {
            tally = tally + self.change(frame, place, octet);
        }
        tally
    }

    // Every octet at each of the five places that the header check covers, from 2 on.
    fn change_frame(&self, frame: &[u8]) -> Tally
        requires { (8 ≤ length frame.now) × (length frame.now ≤ 13) }
        ensures { Tallies self.now.rule (λ test. of_frame test frame.now) result }
    {
        let mut tally = counted(0, 0);
        for i in 0..5 {
            tally = tally + self.change_place(frame, i + 2);
        }
        tally
    }

    // A new frame with at most three data octets.
    fn change_written(
        &self,
        frame_type: MstpFrameType,
        destination: u8,
        source: u8,
        body: &[u8],
    ) -> Tally
        requires { length body.now ≤ 3 }
        ensures { Tallies self.now.rule (λ test. of_frame test (encode_frame self.now.rule frame_type destination source body.now)) result }
    {
        let mut frame = [0u8; FRAME];
        match mstp_encode::encode(self.rule, frame_type, destination, source, body, &mut frame) {
            Ok(n) => self.change_frame(&frame[..n]),
            Err(_) => counted(0, 0),
        }
    }

    // A frame without data, and one with three octets.
    fn change_pair(&self, frame_type: MstpFrameType, destination: u8, source: u8) -> Tally
        ensures { Tallies self.now.rule (λ test. of_pair test self.now.rule frame_type destination source) result }
    {
        let without = self.change_written(frame_type, destination, source, b"");
        let with = self.change_written(frame_type, destination, source, b"\x01\x02\x03");
        without + with
    }

    // A type's frames: to 10 from 05, and to FF from 82.
    fn change_type(&self, frame_type: MstpFrameType) -> Tally
        ensures { Tallies self.now.rule (λ test. of_type test self.now.rule frame_type) result }
    {
        let first = self.change_pair(frame_type, 0x10, 0x05);
        let second = self.change_pair(frame_type, 0xFF, 0x82);
        first + second
    }

    // All types' frames.
    fn change_all(&self) -> Tally
        ensures { Tallies self.now.rule (λ test. of_all test self.now.rule) result }
    {
        let mut tally = counted(0, 0);
        for number in 0..=MSTP_LAST_TYPE {
            tally = tally + self.change_type(mstp_frame::type_of(number));
        }
        tally
    }
}

// A rule's last line: its name and the counts.
fn put_count_line(name: &[u8], changes: usize, read: usize, out: &mut [u8], at: usize) -> usize
    requires { at + length (count_line name.now changes read) ≤ length out.old }
    ensures { Put (count_line name.now changes read) out.old at out.new result }
{
    let mut behind = octets::put(name, out, at);
    behind = text::put_field(changes, out, behind);
    behind = octets::put(b" changes,", out, behind);
    behind = text::put_field(read, out, behind);
    octets::put(b" read\n", out, behind)
}

// Prints what is read under a rule, and the counts. Answers whether all of it could be written.
fn print_rule<P: Print>(to: &P, name: &[u8], rule: CheckRule) -> bool
    requires { length name.now ≤ 8 }
{
    let tally = Reader { to, rule }.change_all();
    let mut line = [0u8; COUNT_LINE];
    let n = put_count_line(name, tally.changes, tally.read, &mut line, 0);
    to.write_all(&line[..n]).is_ok() && tally.written
}

fn main(rt: HostRuntime) {
    let house = print_rule(&rt, b"house:", CheckRule::House);
    let annex_g = print_rule(&rt, b"Annex G:", CheckRule::AnnexG);
    if !(house && annex_g) {
        let _ = rt
            .stderr()
            .write_all(b"missed_changes: standard output cannot be written\n");
    }
}
