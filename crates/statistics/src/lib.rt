// The statistics of a frame: `calculate_frame_statistics` of validation.rs, without the entropy.
#![tactic(auto)]

ghost use Rattle.std.specs.Prelude.{◌≡◌, ◌≤◌, length, sum, IfOk};
ghost use Rattle.statistics.specs.Statistics.{byte_distribution, frame_statistics, no_statistics, statistics};
ghost use Rattle.statistics.specs.Laws.{AllCounted, NullCounted, HighCounted, LongestStands};
ghost use Rattle.statistics.specs.Change.{OneChanged, Reached};

use octets::Refusal;
use runs::Run;

// How many octets have each value, how many are 00, how many are 80 or more, and the longest run.
#[derive(Clone, Copy)]
pub struct FrameStatistics {
    pub byte_distribution: [u32; 256],
    pub null_bytes: usize,
    pub high_bytes: usize,
    pub longest_run: Run,
}

impl FrameStatistics {
    // Zeros: what stands where nothing was counted.
    pub fn zeros() -> FrameStatistics
        ensures { result ≡ no_statistics }
    {
        FrameStatistics {
            byte_distribution: [0; 256],
            null_bytes: 0,
            high_bytes: 0,
            longest_run: Run {
                start: 0,
                octet: 0,
                length: 0,
            },
        }
    }
}

// How many octets have each value.
fn byte_distribution(frame: &[u8]) -> [u32; 256]
    requires { length frame.now ≤ 65535 }
    ensures { result ≡ byte_distribution frame.now }
{
    let mut counts = [0; 256];
    for &octet in frame {
        counts[usize::from(octet)] += 1;
    }
    counts
}

// The sum of some counts.
fn sum(counts: &[u32]) -> usize
    requires { sum counts.now ≤ 65535 }
    ensures { result ≡ sum counts.now }
{
    counts.iter().map(|&n| n as usize).sum()
}

// The statistics of at most 65,535 octets.
fn frame_statistics(frame: &[u8]) -> FrameStatistics
    requires { length frame.now ≤ 65535 }
    ensures { result ≡ frame_statistics frame.now }
{
    let byte_distribution = byte_distribution(frame);
    FrameStatistics {
        byte_distribution,
        null_bytes: byte_distribution[0x00] as usize,
        high_bytes: sum(&byte_distribution[0x80..]),
        longest_run: runs::longest_run(frame),
    }
}

// The statistics of a frame: all counts add up to its length, that of 00 is `null_bytes`, those of 80 and more add up to
// `high_bytes`, and `longest_run` is the longest run of one value with its start, the earliest of equals, and no other run
// is. Or the refusal of question 31. One changed octet changes `null_bytes` and `high_bytes` by at most 1, and each longest
// run is at most twice the other plus 1, which is reached.
pub fn calculate_frame_statistics(frame: &[u8]) -> Result<FrameStatistics, Refusal>
    ensures value { result ≡ statistics frame.now }
    ensures counts { IfOk result (AllCounted frame.now) }
    ensures null { IfOk result NullCounted }
    ensures high { IfOk result HighCounted }
    ensures longest { IfOk result (LongestStands frame.now) }
    ensures changed { IfOk result (OneChanged frame.now) }
    ensures reached { Reached }
{
    if !octets::at_most_65535(frame.len()) {
        return Err(Refusal::TooManyOctets);
    }
    Ok(frame_statistics(frame))
}
