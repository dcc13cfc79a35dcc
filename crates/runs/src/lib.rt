// Runs of octets: how far octets of one value, or between two values, go on from a place, and the longest run of one
// value.
#![tactic(auto)]

ghost use Rattle.std.specs.Prelude.{◌≡◌, drop};
ghost use Rattle.std.specs.List.{prefix_len};
ghost use Rattle.octets.specs.Range.{within};
ghost use Rattle.runs.specs.Front.{is, front};
ghost use Rattle.runs.specs.Longest.{longest, Longest, OnlyLongest};
ghost use Rattle.runs.specs.Example.{Example};

// A run of one value: its first place, the value, and how many octets it has.
#[derive(Clone, Copy, Default)]
pub struct Run {
    pub start: usize,
    pub octet: u8,
    pub length: usize,
}

// How many octets in front are low to high, one behind another.
fn front_within(s: &[u8], low: u8, high: u8) -> usize
    ensures { result ≡ prefix_len (within low high) s.now }
{
    s.iter()
        .take_while(|x| octets::within(low, high, **x))
        .count()
}

// How many octets from place i on are low to high, one behind another. From a place beyond the end: 0.
pub fn within_from(s: &[u8], i: usize, low: u8, high: u8) -> usize
    ensures { result ≡ front (within low high) (drop i s.now) }
{
    match s.get(i..) {
        Some(rest) => front_within(rest, low, high),
        None => 0,
    }
}

// How many octets from place i on are x, one behind another. From a place beyond the end: 0.
pub fn same_from(s: &[u8], i: usize, x: u8) -> usize
    ensures { result ≡ front (is x) (drop i s.now) }
{
    within_from(s, i, x, x)
}

// The longest run, the earliest of equals; of no octets all is 0. No other run is that one.
#[tactic(auto, unfolding(crate::specs::Longest::longest_within, crate::specs::Longest::last_run, crate::specs::Front::front))]
pub fn longest_run(s: &[u8]) -> Run
    ensures value { result ≡ longest s.now }
    ensures longest { Longest s.now result }
    ensures only { OnlyLongest s.now result }
    ensures example { Example }
{
    // The longest run of the octets so far, and the run that they end with.
    let mut longest = Run::default();
    let mut last = Run::default();
    for (i, &x) in s.iter().enumerate() {
        if x == last.octet {
            last.length += 1;
        } else {
            last = Run {
                start: i,
                octet: x,
                length: 1,
            };
        }
        if longest.length < last.length {
            longest = last;
        }
    }
    longest
}
