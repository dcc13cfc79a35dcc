// What letters of a case stand for.
ghost use Rattle.std.specs.Prelude.{◌≡◌, ◌==◌, position};
ghost use Rattle.replay_cases.specs.Digit.{digit_of, octet_of};
ghost use Rattle.replay_cases.specs.Rule.{annex_g_or, rule_of};

use crc::CheckRule;

// The place of an octet among octets, if it is one of them.
fn place(c: u8, octets: &[u8]) -> Option<usize>
    ensures { result ≡ position (λ d. d == c) octets.now }
{
    octets.iter().position(|d| *d == c)
}

// The value of a digit, its place among the sixteen; 0 for any other octet.
fn digit(c: u8) -> u8
    ensures { result ≡ digit_of c }
{
    match place(c, b"0123456789abcdef") {
        Some(value) => value as u8,
        None => 0,
    }
}

// The octet that two digits spell.
pub fn octet_of(high: u8, low: u8) -> u8
    ensures { result ≡ octet_of high low }
{
    digit(high) * 16 + digit(low)
}

// Annex G's rule, or the house rule.
fn annex_g_or(yes: bool) -> CheckRule
    ensures { result ≡ annex_g_or yes }
{
    if yes {
        return CheckRule::AnnexG;
    }
    CheckRule::House
}

// The rule that a letter names.
pub fn rule_of(letter: u8) -> CheckRule
    ensures { result ≡ rule_of letter }
{
    annex_g_or(letter == b'g')
}
