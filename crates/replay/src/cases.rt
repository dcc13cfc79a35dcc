// The cases of a list: tools/oracle/list.rs says what their lines hold, and mstp_list.rs, bip_list.rs and
// ethernet_list.rs beside it what each kind asks and what its answer shows.
ghost use Rattle.std.specs.Prelude.{◌≤◌, ◌<◌, length};

use crate::{answers, bip_cases, ethernet_cases, mstp_cases};
use crc::CheckRule;
use ethernet_decode::EthernetForm;
use octets::Refusal;
use replay_cases::{input, print, spelling};
use std::io::Read;

// Room for the longest input or output of a list.
const SPACE: usize = 65600;

// The most octets that a line tells.
const MOST: usize = 4096;

// Answers a case of that kind: a letter for the rule, how many zeros are left out before the last two octets, the size
// of an output, and then octets up to the line's end.
pub(crate) fn answer<R: Read, P: Print>(from: &mut R, to: &P, kind: u8) {
    let rule = spelling::rule_of(input::letter(from));
    let zeros = input::number(from);
    let size = input::number(from);
    answer_octets(from, to, kind, rule, zeros, size);
    print::letters(to, b"\n");
}

// Reads the octets of a case, puts in the zeros, and answers it. By itself, so that the room is filled once: a function
// fills its arrays where it begins, too.
fn answer_octets<R: Read, P: Print>(
    from: &mut R,
    to: &P,
    kind: u8,
    rule: CheckRule,
    zeros: usize,
    size: usize,
)
    requires { zeros < 65536 }
{
    let mut octets = [0; SPACE];
    let told = input::octets(from, MOST, &mut octets);
    let n = told + zeros;
    if n <= SPACE {
        insert_zeros(&mut octets, told, n);
        answer_to(to, kind, rule, &octets[..n], size);
    }
}

// Moves the last two of the octets told behind the zeros that stand between them and n.
fn insert_zeros(octets: &mut [u8], told: usize, n: usize)
    requires { (told ≤ n) × (n ≤ length octets.old) }
{
    if 2 <= told {
        octets[told - 2..n].rotate_left(2);
    }
}

// Answers a case by its kind. A switch on the letter itself: an enum between would be switched on nowhere else.
fn answer_to<P: Print>(to: &P, kind: u8, rule: CheckRule, input: &[u8], size: usize) {
    match kind {
        b'B' => bip_cases::header(to, input),
        b'C' => writing(to, size, |out| bip_cases::write(input, out)),
        b'D' => print::number(to, usize::from(crc::crc16_mstp(rule, input)), 4),
        b'E' => ethernet_cases::reading(to, EthernetForm::EtherType, input),
        b'G' => writing(to, size, |out| {
            ethernet_cases::write(EthernetForm::EtherType, input, out)
        }),
        b'H' => mstp_cases::header_check(to, rule, input),
        b'L' => ethernet_cases::reading(to, EthernetForm::Length, input),
        b'M' => writing(to, size, |out| {
            ethernet_cases::write(EthernetForm::Length, input, out)
        }),
        b'N' => bip_cases::npdu(to, input),
        b'R' => mstp_cases::reading(to, rule, input),
        b'V' => ethernet_cases::validation(to, input),
        b'W' => writing(to, size, |out| mstp_cases::write(rule, input, out)),
        // No list has another kind: no call is told.
        _ => writing(to, size, |_| None),
    }
}

// Writing into an output of that size: the answer, None where no call is told, then the output and some octets behind it.
fn writing<P: Print, F: FnOnce(&mut [u8]) -> Option<Result<usize, Refusal>>>(
    to: &P,
    size: usize,
    write: F,
)
    requires { F.IsAlwaysCallable write }
{
    let mut out = [answers::BEFORE; SPACE];
    if size <= SPACE {
        let written = write(&mut out[..size]);
        answers::print_written(to, written, &out, size);
    }
}
