// The cases: tools/oracle/analysis_list.rs says what their lines hold, and what each kind asks.
use crate::answers;
use crc::CheckRule;
use replay_cases::{input, print, spelling};
use std::io::Read;

// Room for the longest input of the list.
const OCTETS: usize = 67600;

// Numbers of the longest list, what stands in a lent list before the call, and how many numbers behind it are looked at too.
const NUMBERS: usize = 4096;

const BEFORE: u32 = 0xA5A5A5A5;

const BEHIND: usize = 4;

// Answers a case of that kind: a letter for the rule, the size of a list, how many zeros stand behind the octets, how
// many octets, and then these.
pub(crate) fn answer<R: Read, P: Print>(from: &mut R, to: &P, kind: u8) {
    let rule = spelling::rule_of(input::letter(from));
    let size = input::number(from);
    let zeros = input::number(from);
    let told = input::number(from);
    let mut octets = [0; OCTETS];
    input::octets(from, told, &mut octets);
    input::letter(from);
    if let Some(frame) = octets.get(..told + zeros) {
        answer_to(to, kind, rule, frame, size);
        print::letters(to, b"\n");
    }
}

// Answers a case by its kind. A switch on the letter itself: an enum between would be switched on nowhere else.
fn answer_to<P: Print>(to: &P, kind: u8, rule: CheckRule, frame: &[u8], size: usize) {
    match kind {
        b'A' => with_list(to, size, |list| {
            answers::print_analysis(to, analysis::analyze_frame(rule, frame, list))
        }),
        b'E' => answers::print_result(to, validation_ethernet::validate_ethernet_frame(frame)),
        b'F' => answers::print_result(to, validation::validate_frame(rule, frame)),
        b'I' => answers::print_result(to, validation_ip::validate_bacnet_ip_frame(frame)),
        b'M' => answers::print_result(to, validation_mstp::validate_mstp_frame(rule, frame)),
        b'S' => answers::print_statistics_answer(to, statistics::calculate_frame_statistics(frame)),
        b'W' => answers::print_steps(to, frame),
        // Patterns: P in the lists, and no list has another kind.
        _ => with_list(to, size, |list| {
            print::count(
                to,
                b"F",
                patterns::detect_patterns(frame, list).map_err(u8::from),
            )
        }),
    }
}

// Answers a case that lends a list of that size, then shows the list.
fn with_list<P: Print, F: FnOnce(&mut [u32])>(to: &P, size: usize, answer: F)
    requires { F.IsAlwaysCallable answer }
{
    let mut list = [BEFORE; NUMBERS + BEHIND];
    if size <= NUMBERS {
        answer(&mut list[..size]);
        answers::print_list(to, &list, size + BEHIND);
    }
}
