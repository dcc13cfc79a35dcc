// A frame with its padding.
ghost use Rattle.std.specs.Prelude.{◌≡◌, ◌-◌, ◌≤◌, length, take};
ghost use Rattle.std.specs.Option.{option_to_list};
ghost use Rattle.padding.specs.Padding.{padding_length};
ghost use Rattle.patterns.specs.Entries.{padding, texts, has_zeros, has_sequence};

use crate::pattern::Pattern;

// A frame of at most 65,535 octets, and how many octets at its end are padding.
#[derive(Clone, Copy)]
pub(crate) struct PaddedFrame<'a> {
    frame: &'a [u8],
    padding: usize,
    ghost short: { length frame.now ≤ 65535 },
    ghost is_padding: { padding ≡ padding_length frame.now },
    ghost inside: { padding ≤ length frame.now - 1 },
}

impl<'a> PaddedFrame<'a> {
    pub(crate) fn new(frame: &'a [u8]) -> PaddedFrame<'a>
        requires { length frame.now ≤ 65535 }
        ensures { result.frame.now ≡ frame.now }
    {
        PaddedFrame {
            frame,
            padding: padding::state_after(frame).padding_length(),
        }
    }

    // The octets before the padding.
    fn before(&self) -> &'a [u8]
        ensures { result.now ≡ take (length self.now.frame.now - self.now.padding) self.now.frame.now }
    {
        &self.frame[..self.frame.len() - self.padding]
    }

    // The padding, if there is one.
    pub(crate) fn padding(&self) -> Option<Pattern>
        ensures { option_to_list result ≡ padding self.now.frame.now }
    {
        if self.padding < 4 {
            return None;
        }
        Some(Pattern::Padding {
            start: self.before().len() as u32,
            length: self.padding as u32,
            value: self.frame[self.frame.len() - 1],
        })
    }

    // Whether the octets before the padding are at least 8, all of them 00.
    pub(crate) fn has_zeros(&self) -> bool
        ensures { result ≡ has_zeros self.now.frame.now }
    {
        let before = self.before();
        8 <= before.len() && before.iter().all(|&octet| octet == 0)
    }

    // Whether the frame starts with 00 to 07.
    pub(crate) fn has_sequence(&self) -> bool
        ensures { result ≡ has_sequence self.now.frame.now }
    {
        self.frame.starts_with(&[0, 1, 2, 3, 4, 5, 6, 7])
    }

    // The octets in front that have all texts: those before the padding, if its octets are none of 20 to 7E, else all.
    pub(crate) fn text_part(&self) -> &'a [u8]
        ensures texts { texts result.now ≡ texts self.now.frame.now }
        ensures short { length result.now ≤ 65535 }
    {
        match self.frame.last() {
            Some(&value) if !octets::within(0x20, 0x7E, value) => self.before(),
            _ => self.frame,
        }
    }
}
