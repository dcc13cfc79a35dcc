// What a case is read from. No contract can say which letters stand there: what is free of an answer is free in its contract.
ghost use Rattle.std.specs.Prelude.{◌≡◌, ◌≤◌, ◌<◌, drop};
ghost use Rattle.io.specs.Counts.{IsPrefixLen};

use crate::spelling;
use std::io::Read;

// Reads a letter, any; 0 at the end.
pub fn letter<R: Read>(from: &mut R) -> u8 {
    let mut letters = [0u8; 1];
    let _ = from.read_exact(&mut letters);
    letters[0]
}

// Reads an octet, two digits: any.
pub fn octet<R: Read>(from: &mut R) -> u8 {
    let mut digits = [0u8; 2];
    let _ = from.read_exact(&mut digits);
    spelling::octet_of(digits[0], digits[1])
}

// Reads a number, four digits.
pub fn number<R: Read>(from: &mut R) -> usize
    ensures { result < 65536 }
{
    let high = octet(from);
    octets::number(high, octet(from)) as usize
}

// Reads a long number, eight digits.
pub fn long_number<R: Read>(from: &mut R) -> usize
    ensures { result < 4294967296 }
{
    let high = number(from);
    high * 65536 + number(from)
}

// Reads octets to the front of `out`, as far as it has room, at most n of them and none behind the line's end, and
// answers how many. Behind them `out` is as it was.
pub fn octets<R: Read>(from: &mut R, n: usize, out: &mut [u8]) -> usize
    ensures prefix_len { IsPrefixLen result out.new }
    ensures most { result ≤ n }
    ensures rest { drop result out.new ≡ drop result out.old }
{
    let mut i = 0;
    while i < out.len() {
        if i == n {
            return i;
        }
        let high = letter(from);
        if high <= b'\n' {
            return i;
        }
        out[i] = spelling::octet_of(high, letter(from));
        i += 1;
    }
    i
}
