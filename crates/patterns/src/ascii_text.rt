// The texts of a frame.
ghost use Rattle.std.specs.Prelude.{◌≤◌, ◌<◌, length};
ghost use Rattle.patterns.specs.Entries.{texts};
ghost use Rattle.patterns.specs.Steps.{Passed, PutEntries};

use crate::pattern;
use crate::pattern::Pattern;

// How far the search for texts goes from place `i` on: over all octets of a text, or over fewer than 4, to an octet that is
// in no text or to the end. Of the first four octets the last is looked at first.
fn text_length(frame: &[u8], i: usize) -> usize
    requires { i < length frame.now }
    ensures { Passed frame.now i result }
{
    let rest = &frame[i..];
    let Some(first) = rest.first_chunk::<4>() else {
        return rest.len();
    };
    match first
        .iter()
        .rposition(|&octet| !octets::within(0x20, 0x7E, octet))
    {
        Some(n) => n,
        None => 4 + runs::within_from(frame, i + 4, 0x20, 0x7E),
    }
}

// Puts the texts' entries behind `at` entries, and answers how many entries there are with them. Each turn goes on behind an
// octet that is in no text.
pub(crate) fn put_texts(frame: &[u8], out: &mut [u32], at: usize) -> usize
    requires short { length frame.now ≤ 65535 }
    requires few { at ≤ 1 }
    ensures { PutEntries (texts frame.now) out.old at out.new result }
{
    let mut here = at;
    let mut start = 0;
    // A while: how far a turn goes on is what it found.
    while start < frame.len() {
        let length = text_length(frame, start);
        let text = Pattern::AsciiText {
            start: start as u32,
            length: length as u32,
        };
        here = pattern::put((4 <= length).then_some(text), out, here);
        start += length + 1;
    }
    here
}
