// The cases: tools/model/cases.py says what their lines hold, and what each kind asks.
ghost use Rattle.std.specs.Prelude.{◌≤◌, ◌≡◌, length};

use crate::{answers, pieces};
use crc::CheckRule;
use replay_cases::{input, print, spelling};
use std::io::Read;

// What stands in the lent list before the call, and how many numbers behind it are looked at too.
const BEFORE: u32 = 0xA5A5A5A5;

const BEHIND: usize = 4;

// The most steps of the reader that are shown.
const MOST_STEPS: usize = 65536;

// Room for the longest run of the list. The `ensures` gives what lending it as a slice needs.
fn run_space() -> [u8; 65600]
    ensures { 65600 ≡ length result }
{
    [0; 65600]
}

// Answers a case of that kind: a letter for the rule, a long number, and then the run.
pub(crate) fn answer<R: Read, P: Print>(from: &mut R, to: &P, kind: u8) {
    let rule = spelling::rule_of(input::letter(from));
    let number = input::long_number(from);
    let mut octets = run_space();
    let n = pieces::run(from, &mut octets);
    input::letter(from);
    answer_to(to, kind, rule, &octets[..n], number);
    print::letters(to, b"\n");
}

// Answers a case by its kind.
fn answer_to<P: Print>(to: &P, kind: u8, rule: CheckRule, run: &[u8], number: usize) {
    match kind {
        b'F' => answers::print_found(to, run_finder::find_frame(rule, run, number)),
        b'N' => steps(to, rule, run, number),
        b'R' => whole(to, rule, run, number),
        _ => print::letters(to, b"no kind"),
    }
}

// The reader's steps from a place, until one is no report; then the place where it stands.
fn steps<P: Print>(to: &P, rule: CheckRule, run: &[u8], place: usize) {
    let mut at = place;
    for _ in 0..MOST_STEPS {
        let step = run_reader::step_at(rule, run, at);
        at = step.next;
        answers::print_found(to, step.found);
        if !matches!(step.found, Ok(Some(_))) {
            print::number(to, at, 4);
            return;
        }
        print::letters(to, b" ");
    }
}

// Room for the longest list. The `ensures` gives what lending it as a slice needs.
fn list_space() -> [u32; 16400]
    ensures { 16400 ≡ length result }
{
    [BEFORE; 16400]
}

// The whole reading, counted and into a list of that size, then the list.
fn whole<P: Print>(to: &P, rule: CheckRule, run: &[u8], size: usize) {
    if 16384 < size {
        return;
    }
    let mut list = list_space();
    print::count(
        to,
        b"F",
        run_reading::count_frames(rule, run).map_err(u8::from),
    );
    print::letters(to, b" ");
    fill(to, rule, run, &mut list, size);
    print::list(to, &list, size + BEHIND, 4);
}

// The whole reading into the front of a list.
fn fill<P: Print>(to: &P, rule: CheckRule, run: &[u8], list: &mut [u32], size: usize)
    requires { size ≤ length list.old }
{
    print::count(
        to,
        b"F",
        run_reading::read_frames(rule, run, &mut list[0..size]).map_err(u8::from),
    );
}
