// A pattern of a frame, and its entry in the lent list.
ghost use Rattle.std.specs.Prelude.{◌≡◌, ◌≤◌};
ghost use Rattle.std.specs.Option.{option_to_list};
ghost use Rattle.patterns.specs.Entries.{numbers_of};
ghost use Rattle.patterns.specs.Steps.{PutEntries};

use crate::{PADDING, SEQUENCE, TEXT, ZEROS};

// A pattern: its first place, how many octets it has, and the value that all of them have.
#[derive(Clone, Copy)]
pub(crate) enum Pattern {
    Padding { start: u32, length: u32, value: u8 },
    AsciiText { start: u32, length: u32 },
    Zeros,
    Sequence,
}

// The four numbers of an entry: pattern, start, length, octet value.
impl From<Pattern> for [u32; 4] {
    ghost from_gives = { λ p n. n ≡ numbers_of p };

    fn from(pattern: Pattern) -> [u32; 4] {
        match pattern {
            Pattern::Padding {
                start,
                length,
                value,
            } => [PADDING, start, length, u32::from(value)],
            Pattern::AsciiText { start, length } => [TEXT, start, length, 0],
            Pattern::Zeros => [ZEROS, 0, 0, 0],
            Pattern::Sequence => [SEQUENCE, 0, 0, 0],
        }
    }
}

// Puts the entry of a pattern, if there is one, behind `at` entries, if there is room, and answers how many entries there are
// with it.
pub(crate) fn put(pattern: Option<Pattern>, out: &mut [u32], at: usize) -> usize
    requires { at ≤ 65540 }
    ensures { PutEntries (option_to_list pattern) out.old at out.new result }
{
    match pattern {
        None => at,
        Some(pattern) => {
            if at < out.len() / 4 {
                out[4 * at..4 * at + 4].copy_from_slice(&<[u32; 4]>::from(pattern));
            }
            at + 1
        }
    }
}
