// What is seen of a frame before its texts are searched.
ghost use Rattle.std.specs.Prelude.{◌≡◌, ◌≤◌, length};
ghost use Rattle.patterns.specs.Entries.{entries};
ghost use Rattle.patterns.specs.Steps.{PutEntries};

use crate::padded_frame::PaddedFrame;
use crate::pattern::Pattern;
use crate::{ascii_text, pattern};

// The padding, the octets that have all texts, and whether there are zeros and the sequence.
#[derive(Clone, Copy)]
pub(crate) struct Seen<'a> {
    padding: Option<Pattern>,
    text_part: &'a [u8],
    zeros: bool,
    sequence: bool,
    ghost short: { length text_part.now ≤ 65535 },
}

impl<'a> Seen<'a> {
    ghost use Rattle.patterns.specs.Seen.{entries_seen};

    pub(crate) fn new(frame: &PaddedFrame<'a>) -> Seen<'a>
        ensures { entries_seen result ≡ entries frame.now.frame.now }
    {
        Seen {
            padding: frame.padding(),
            text_part: frame.text_part(),
            zeros: frame.has_zeros(),
            sequence: frame.has_sequence(),
        }
    }

    // Puts all entries at the front, as far as there is room, and answers how many there are.
    pub(crate) fn put(&self, out: &mut [u32]) -> usize
        ensures { PutEntries (entries_seen self.now) out.old 0 out.new result }
    {
        let at = pattern::put(self.padding, out, 0);
        let at = ascii_text::put_texts(self.text_part, out, at);
        let at = pattern::put(self.zeros.then_some(Pattern::Zeros), out, at);
        pattern::put(self.sequence.then_some(Pattern::Sequence), out, at)
    }
}
