// Rules, forms, times and results as numbers, for callers in other languages.
#![tactic(auto)]

mod layout;

ghost use Rattle.std.specs.Prelude.{◌≡◌};
ghost use Rattle.numbers.specs.Layout.{error_number};
ghost use Rattle.numbers.specs.Named.{rule_of, form_of, time_of, rule_named, form_named, time_named};

use crc::CheckRule;
use datalink::DataLinkError;
use ethernet_decode::EthernetForm;
pub use layout::{
    bvlc_numbers, count_numbers, header_numbers, layout_version, record_numbers, state_numbers,
    state_of,
};

// The largest number of a rule: 0 is Annex G, 1 the house rule.
pub const LAST_RULE: u8 = 1;

// The rule of a number, 0 or 1; above 1 the last.
#[tactic(auto, unfolding(crate::specs::Named::rule_of))]
pub fn rule_of(number: u8) -> CheckRule
    ensures { result ≡ rule_of number }
{
    match number {
        0 => CheckRule::AnnexG,
        _ => CheckRule::House,
    }
}

// The rule that a number names; above 1 none.
#[tactic(auto, unfolding(crate::specs::Named::rule_named))]
pub fn rule_named(number: u8) -> Option<CheckRule>
    ensures { result ≡ rule_named number }
{
    (number <= LAST_RULE).then_some(rule_of(number))
}

// The largest number of an Ethernet form: 0 is EtherType, 1 Length.
pub const LAST_FORM: u8 = 1;

// The Ethernet form of a number, 0 or 1; above 1 the last.
#[tactic(auto, unfolding(crate::specs::Named::form_of))]
pub fn form_of(number: u8) -> EthernetForm
    ensures { result ≡ form_of number }
{
    match number {
        0 => EthernetForm::EtherType,
        _ => EthernetForm::Length,
    }
}

// The Ethernet form that a number names; above 1 none.
#[tactic(auto, unfolding(crate::specs::Named::form_named))]
pub fn form_named(number: u8) -> Option<EthernetForm>
    ensures { result ≡ form_named number }
{
    (number <= LAST_FORM).then_some(form_of(number))
}

// The largest number of a time: 0 is no time, 1 a second.
pub const LAST_TIME: u8 = 1;

// The time of a number, 0 or 1, and a second, which 0 leaves aside; above 1 the last.
#[tactic(auto, unfolding(crate::specs::Named::time_of))]
pub fn time_of(timed: u8, second: u32) -> Option<u32>
    ensures { result ≡ time_of second timed }
{
    match timed {
        0 => None,
        _ => Some(second),
    }
}

// The time that a number and a second name; above 1 none.
#[tactic(auto, unfolding(crate::specs::Named::time_named))]
pub fn time_named(timed: u8, second: u32) -> Option<Option<u32>>
    ensures { result ≡ time_named second timed }
{
    (timed <= LAST_TIME).then_some(time_of(timed, second))
}

// The number of an error; 0 where the Rust has none.
pub fn error_number(error: Option<DataLinkError>) -> u8
    ensures { result ≡ error_number error }
{
    match error {
        Some(DataLinkError::InvalidFrame) => 1,
        Some(DataLinkError::CrcError) => 2,
        None => 0,
    }
}
