// The patterns of a frame: `detect_patterns` of validation.rs.
#![tactic(auto)]

mod ascii_text;
mod padded_frame;
mod pattern;
mod seen;

ghost use Rattle.std.specs.Prelude.{◌≡◌};
ghost use Rattle.patterns.specs.Entries.{padding_pattern, text_pattern};
ghost use Rattle.patterns.specs.Detect.{patterns_answer, patterns_output};
ghost use Rattle.patterns.specs.Laws.{Shows, Padding, Text};

use octets::Refusal;
use padded_frame::PaddedFrame;
use seen::Seen;

// The numbers of the patterns.
pub const PADDING: u32 = 1;

pub const TEXT: u32 = 2;

pub const ZEROS: u32 = 3;

pub const SEQUENCE: u32 = 4;

// Writes an entry of four numbers (pattern, start, length, octet value) for each pattern at the front of `out`, whose rest
// stays, and answers how many there are. Or refuses by the question that fails, and writes nothing. The paddings and the texts
// among the entries are those that `Padding` and `Text` describe, and none is missing.
pub fn detect_patterns(frame: &[u8], out: &mut [u32]) -> Result<usize, Refusal>
    ensures value { result ≡ patterns_answer frame.now out.old }
    ensures output { out.new ≡ patterns_output frame.now out.old }
    ensures padding { Shows padding_pattern (Padding frame.now) result out.new }
    ensures texts { Shows text_pattern (Text frame.now) result out.new }
{
    if !octets::at_most_65535(frame.len()) {
        return Err(Refusal::TooManyOctets);
    }
    let seen = Seen::new(&PaddedFrame::new(frame));
    // No frame of this size has more entries: each text has at least 4 octets, and another stands between two texts.
    if out.len() / 4 < (frame.len() + 1) / 5 + 3 && out.len() / 4 < seen.put(&mut []) {
        return Err(Refusal::ListTooShort);
    }
    Ok(seen.put(out))
}
