// The validator of BACnet/IP messages: `validate_bacnet_ip_frame` of validation.rs.
#![tactic(auto)]

ghost use Rattle.std.specs.Prelude.{◌≡◌};
ghost use Rattle.findings.specs.Result.{faultless};
ghost use Rattle.validation_ip.specs.Tests.{changes_table, ip_result};
ghost use Rattle.validation_ip.specs.Validity.{ValidAsRead};

use bip_header::{BVLC_HEADER_SIZE, BVLC_TYPE};
use findings::{
    Entries, LinkType, SecurityReason, ValidationError, ValidationResult, ValidationWarning,
};

// The largest function that is let pass: one more than `decode` knows.
const LAST_FUNCTION: u8 = 0x0D;

// Secure BVLL.
const SECURE_BVLL: u8 = 0x0C;

// Most octets of a message.
const MAX_MESSAGE_SIZE: usize = 1497;

// Whether a function changes a table.
fn changes_table(function: u8) -> bool
    ensures { result ≡ changes_table function }
{
    matches!(function, 0x01 | 0x08)
}

// Checks a message: every error and warning that it gives, in the Rust's order. Valid are exactly the octets whose header
// `decode` accepts, as many as it says and at most 1497; and so with function 0D, which `decode` refuses.
pub fn validate_bacnet_ip_frame(message: &[u8]) -> ValidationResult
    ensures value { result ≡ ip_result message.now }
    ensures read { ValidAsRead message.now result.is_valid }
{
    let size = message.len();
    let [bvlc_type, function, high, low, ..] = message else {
        return ValidationResult::too_short(Some(LinkType::BacnetIp), size, BVLC_HEADER_SIZE);
    };
    let (bvlc_type, function) = (*bvlc_type, *function);
    let declared = usize::from(u16::from_be_bytes([*high, *low]));
    let mut errors = Entries::new();
    errors.add_if(
        bvlc_type != BVLC_TYPE,
        ValidationError::InvalidPreamble {
            expected: u16::from(BVLC_TYPE),
            found: u16::from(bvlc_type),
        },
    );
    errors.add_if(
        LAST_FUNCTION < function,
        ValidationError::InvalidFrameType { value: function },
    );
    errors.add_if(
        declared != size,
        ValidationError::PayloadSizeMismatch {
            declared,
            actual: size,
        },
    );
    errors.add_if(
        MAX_MESSAGE_SIZE < size,
        ValidationError::FrameTooLong {
            size,
            maximum: MAX_MESSAGE_SIZE,
        },
    );
    let mut warnings = Entries::new();
    warnings.add_if(
        function == SECURE_BVLL,
        ValidationWarning::SecurityWarning {
            reason: SecurityReason::SecureBvll,
        },
    );
    warnings.add_if(
        changes_table(function),
        ValidationWarning::SecurityWarning {
            reason: SecurityReason::TableModification,
        },
    );
    ValidationResult {
        is_valid: errors.len() == 0,
        link_type: Some(LinkType::BacnetIp),
        frame_size: size,
        errors,
        warnings,
    }
}

// Whether a message gives neither an error nor a warning.
pub fn faultless(message: &[u8]) -> bool
    ensures { result ≡ faultless (ip_result message.now) }
{
    let [bvlc_type, function, high, low, ..] = message else {
        return false;
    };
    *bvlc_type == BVLC_TYPE
        && *function <= LAST_FUNCTION
        && usize::from(u16::from_be_bytes([*high, *low])) == message.len()
        && message.len() <= MAX_MESSAGE_SIZE
        && *function != SECURE_BVLL
        && !changes_table(*function)
}
