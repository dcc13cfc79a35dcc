// Numbers as text, put at a place of lent memory. As with `octets::put`, each answers the place behind what it put; where that
// does not fit, it puts nothing, and answers the place itself.
#![tactic(auto)]

ghost use Rattle.std.specs.Prelude.{◌≡◌, ◌%◌, get_or};
ghost use Rattle.octets.specs.Put.{put_place, put_output};
ghost use Rattle.text.specs.Text.{field, hexadecimal, letters};

// A space and a number in decimal digits.
pub fn put_field(n: usize, out: &mut [u8], at: usize) -> usize
    ensures value { result ≡ put_place (field n) out.old at }
    ensures output { out.new ≡ put_output (field n) out.old at }
{
    let mut digits = [0u8; 20];
    let k = io::decimal(n as u64, &mut digits);
    let mut text = [b' '; 21];
    text[1..1 + k].copy_from_slice(&digits[..k]);
    octets::put(&text[..1 + k], out, at)
}

// The code of a number's last hexadecimal digit.
fn last_digit(n: u16) -> u8
    ensures { result ≡ get_or (letters "0123456789ABCDEF") (n % 16) 0 }
{
    b"0123456789ABCDEF"[usize::from(n % 16)]
}

// A number's last N hexadecimal digits.
fn digits<const N: usize>(n: u16) -> [u8; N]
    ensures { result ≡ hexadecimal N n }
{
    let mut digits = [0u8; N];
    let mut rest = n;
    for k in (0..N).rev() {
        digits[k] = last_digit(rest);
        rest /= 16;
    }
    digits
}

// An octet in two hexadecimal digits.
pub fn put_hex_2(n: u8, out: &mut [u8], at: usize) -> usize
    ensures value { result ≡ put_place (hexadecimal 2 n) out.old at }
    ensures output { out.new ≡ put_output (hexadecimal 2 n) out.old at }
{
    octets::put(&digits::<2>(u16::from(n)), out, at)
}

// A number of two octets in four hexadecimal digits. (No one function with `put_hex_2`: its parameter N would need a
// `requires`, that an array of N octets is not too long for a slice.)
pub fn put_hex_4(n: u16, out: &mut [u8], at: usize) -> usize
    ensures value { result ≡ put_place (hexadecimal 4 n) out.old at }
    ensures output { out.new ≡ put_output (hexadecimal 4 n) out.old at }
{
    octets::put(&digits::<4>(n), out, at)
}
