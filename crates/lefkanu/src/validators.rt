// The validators of validation.rs: a result of 32 numbers. That of a frame without findings is laid out at once, as this
// takes less time.
ghost use Rattle.std.specs.Prelude.{◌≡◌};
ghost use Rattle.validation_mstp.specs.Tests.{mstp_result};
ghost use Rattle.validation_ip.specs.Tests.{ip_result};
ghost use Rattle.validation_ethernet.specs.Tests.{ethernet_result};
ghost use Rattle.validation.specs.Frame.{frame_result};
ghost use Rattle.result_numbers.specs.Layout.{result_numbers};
ghost use Rattle.numbers.specs.Named.{under_rule};
ghost use Rattle.answers.specs.Told.{no_case};

use answers::NO_CASE;
use findings::LinkType;

// Checks an MS/TP frame.
#[tactic(auto, using(validation_mstp::proofs::NoFindings::clean_frame))]
#[unsafe(no_mangle)]
pub extern "C" fn lefkanu_validate_mstp_frame(rule: u8, frame: &[u8], res: &mut [usize; 32]) -> u8
    ensures value { result ≡ under_rule rule (λ _. 0) no_case }
    ensures res { res.new
        ≡ under_rule rule (λ rule. result_numbers (mstp_result rule frame.now)) res.old }
{
    let Some(rule) = numbers::rule_named(rule) else {
        return NO_CASE;
    };
    if validation_mstp::faultless(rule, frame) {
        *res = result_numbers::clean_numbers(Some(LinkType::MsTP), frame.len());
        return 0;
    }
    result_numbers::put_numbers(&validation_mstp::validate_mstp_frame(rule, frame), res);
    0
}

// Checks a BACnet/IP message.
#[unsafe(no_mangle)]
pub extern "C" fn lefkanu_validate_bacnet_ip_frame(message: &[u8], res: &mut [usize; 32])
    ensures { res.new ≡ result_numbers (ip_result message.now) }
{
    if validation_ip::faultless(message) {
        *res = result_numbers::clean_numbers(Some(LinkType::BacnetIp), message.len());
        return;
    }
    result_numbers::put_numbers(&validation_ip::validate_bacnet_ip_frame(message), res);
}

// Checks an Ethernet frame.
#[tactic(auto, using(validation_ethernet::proofs::NoFindings::clean_frame))]
#[unsafe(no_mangle)]
pub extern "C" fn lefkanu_validate_ethernet_frame(frame: &[u8], res: &mut [usize; 32])
    ensures { res.new ≡ result_numbers (ethernet_result frame.now) }
{
    if validation_ethernet::faultless(frame) {
        *res = result_numbers::clean_numbers(Some(LinkType::Ethernet), frame.len());
        return;
    }
    result_numbers::put_numbers(&validation_ethernet::validate_ethernet_frame(frame), res);
}

// Checks a frame by the validator of the link that its octets tell.
#[tactic(auto, using(validation::proofs::Links::clean_frame))]
#[unsafe(no_mangle)]
pub extern "C" fn lefkanu_validate_frame(rule: u8, frame: &[u8], res: &mut [usize; 32]) -> u8
    ensures value { result ≡ under_rule rule (λ _. 0) no_case }
    ensures res { res.new
        ≡ under_rule rule (λ rule. result_numbers (frame_result rule frame.now)) res.old }
{
    let Some(rule) = numbers::rule_named(rule) else {
        return NO_CASE;
    };
    if validation::faultless(rule, frame) {
        *res = result_numbers::clean_numbers(validation::link_of(frame), frame.len());
        return 0;
    }
    result_numbers::put_numbers(&validation::validate_frame(rule, frame), res);
    0
}
