// The validators of validation.rs, and the one that finds out which of them a frame goes to: `validate_frame`.
#![tactic(auto)]

ghost use Rattle.std.specs.Prelude.{◌≡◌, [], None, eqb};
ghost use Rattle.ethernet_decode.specs.Frame.{bacnet_type};
ghost use Rattle.ethernet_decode.specs.Decode.{field_of};
ghost use Rattle.validation_ip.specs.Tests.{bvlc_type};
ghost use Rattle.findings.specs.Result.{validation_result, faultless};
ghost use Rattle.validation.specs.Frame.{link_of, no_link_errors, frame_result};

use bip_header::BVLC_TYPE;
use crc::CheckRule;
use ethernet_decode::{BACNET_ETHERNET_TYPE, ETHERNET_HEADER_SIZE};
use findings::{HeaderReason, LinkType, ValidationError, ValidationResult};

// Whether a frame begins 81.
fn begins_bvlc(frame: &[u8]) -> bool
    ensures { result ≡ eqb (bvlc_type frame.now) 0x81 }
{
    matches!(frame, [BVLC_TYPE, ..])
}

// Whether a frame has 82 DC at octet 12.
fn has_bacnet_type(frame: &[u8]) -> bool
    ensures { result ≡ eqb (field_of frame.now) bacnet_type }
{
    ETHERNET_HEADER_SIZE <= frame.len()
        && u16::from_be_bytes([frame[12], frame[13]]) == BACNET_ETHERNET_TYPE
}

// The link that a frame is taken for, if there is one.
pub fn link_of(frame: &[u8]) -> Option<LinkType>
    ensures { result ≡ link_of frame.now }
{
    if mstp_frame::begins_preamble(frame) {
        Some(LinkType::MsTP)
    } else if begins_bvlc(frame) {
        Some(LinkType::BacnetIp)
    } else if has_bacnet_type(frame) {
        Some(LinkType::Ethernet)
    } else {
        None
    }
}

// The result where no link is determined.
fn no_link(size: usize) -> ValidationResult
    ensures { result ≡ validation_result None size (no_link_errors size) [] }
{
    if size == 0 {
        return ValidationResult::too_short(None, size, 1);
    }
    ValidationResult::one_error(
        None,
        size,
        ValidationError::InvalidHeader {
            reason: HeaderReason::Undetermined,
        },
    )
}

// Checks a frame by the validator of the link that its octets tell. The rule is for MS/TP.
pub fn validate_frame(rule: CheckRule, frame: &[u8]) -> ValidationResult
    ensures { result ≡ frame_result rule frame.now }
{
    match link_of(frame) {
        None => no_link(frame.len()),
        Some(LinkType::BacnetIp) => validation_ip::validate_bacnet_ip_frame(frame),
        Some(LinkType::Ethernet) => validation_ethernet::validate_ethernet_frame(frame),
        Some(LinkType::MsTP) => validation_mstp::validate_mstp_frame(rule, frame),
    }
}

// Whether a frame gives neither an error nor a warning to the validator of its link. The rule is for MS/TP.
pub fn faultless(rule: CheckRule, frame: &[u8]) -> bool
    ensures { result ≡ faultless (frame_result rule frame.now) }
{
    match link_of(frame) {
        None => false,
        Some(LinkType::BacnetIp) => validation_ip::faultless(frame),
        Some(LinkType::Ethernet) => validation_ethernet::faultless(frame),
        Some(LinkType::MsTP) => validation_mstp::faultless(rule, frame),
    }
}
