// A run of octets as a case has it: piece by piece.
ghost use Rattle.std.specs.Prelude.{◌≤◌, ◌<◌, length};
ghost use Rattle.io.specs.Counts.{IsPrefixLen};

use replay_cases::input;
use std::io::Read;

// The octet at i of a piece that starts at n: the first `told` octets are read, the others repeat them.
fn octet_at<R: Read>(from: &mut R, out: &[u8], i: usize, n: usize, told: usize) -> u8
    requires { (n ≤ i) × (i < length out.now) }
{
    if i - n < told {
        return input::octet(from);
    }
    out[i - told]
}

// Reads a piece behind the first n octets, as far as there is room, and answers the count with it.
fn piece<R: Read>(from: &mut R, out: &mut [u8], n: usize) -> usize
    requires { n ≤ length out.old }
    ensures { result ≤ length out.new }
{
    let total = input::long_number(from);
    let told = input::number(from);
    let mut i = n;
    while i < out.len() {
        if i - n == total {
            return i;
        }
        out[i] = octet_at(from, out, i, n, told);
        i += 1;
    }
    i
}

// Reads the pieces of a run to the front of `out`, and answers its count of octets.
pub(crate) fn run<R: Read>(from: &mut R, out: &mut [u8]) -> usize
    ensures { IsPrefixLen result out.new }
{
    let pieces = input::number(from);
    let mut n = 0;
    for _ in 0..pieces {
        n = piece(from, out, n);
    }
    n
}
