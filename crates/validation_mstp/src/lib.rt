// The validator of MS/TP frames under either check rule: `validate_mstp_frame` of validation.rs.
#![tactic(auto)]

ghost use Rattle.std.specs.Prelude.{◌≡◌, not, eqb, length};
ghost use Rattle.octets.specs.Range.{within};
ghost use Rattle.findings.specs.Result.{found, given, faultless};
ghost use Rattle.validation_mstp.specs.Tests.{data_check_test, master_to_slave, warning_tests, errorless, mstp_result};
ghost use Rattle.validation_mstp.specs.Validity.{ValidAsRead};

use crc::CheckRule;
use findings::{
    AddressReason, ConfigurationReason, Entries, HeaderReason, LinkType, ValidationError,
    ValidationResult, ValidationWarning,
};
use mstp_frame::{MSTP_BROADCAST, MSTP_HEADER_SIZE, MSTP_MAX_DATA_LENGTH};

// The preamble as one number.
const MSTP_PREAMBLE: u16 = 0x55FF;

// The first type that is proprietary.
const PROPRIETARY: u8 = 128;

// Whether a type is neither known nor proprietary.
fn is_reserved(frame_type: u8) -> bool
    ensures { result ≡ within 8 127 frame_type }
{
    octets::within(8, 127, frame_type)
}

// The error of the data check, where it is there and wrong.
fn data_check_error(rule: CheckRule, frame: &[u8]) -> Option<ValidationError>
    ensures { result ≡ given (data_check_test rule frame.now) }
{
    let data_length = mstp_frame::data_length(frame);
    if data_length == 0 || frame.len() < mstp_frame::frame_size(data_length) {
        return None;
    }
    let received = mstp_frame::data_check_sent(frame);
    let calculated = crc::crc16_mstp(rule, mstp_frame::data_part(frame));
    (received != calculated).then_some(ValidationError::CrcMismatch {
        received,
        calculated,
    })
}

// Whether a master sends to a slave with a type that is not usual there under the rule.
fn master_to_slave(rule: CheckRule, frame_type: u8, destination: u8, source: u8) -> bool
    ensures { result ≡ master_to_slave rule frame_type destination source }
{
    mstp_frame::is_master_node(source)
        && mstp_frame::is_slave_node(destination)
        && !mstp_frame::usual_to_slave(rule, frame_type)
}

// Checks a frame: every error and warning that it gives, in the Rust's order. Valid are exactly the octets that `decode`
// accepts, with a source other than 255 and at most 501 data octets; and so with a type of 128 or more.
pub fn validate_mstp_frame(rule: CheckRule, frame: &[u8]) -> ValidationResult
    ensures value { result ≡ mstp_result rule frame.now }
    ensures read { ValidAsRead rule frame.now result.is_valid }
{
    let size = frame.len();
    if size < MSTP_HEADER_SIZE {
        return ValidationResult::too_short(Some(LinkType::MsTP), size, MSTP_HEADER_SIZE);
    }
    let preamble = mstp_frame::preamble(frame);
    let frame_type = mstp_frame::frame_type(frame);
    let source = mstp_frame::source(frame);
    let data_length = mstp_frame::data_length(frame);
    let received = mstp_frame::header_check_sent(frame);
    let calculated = crc::header_crc(rule, mstp_frame::fields_part(frame));
    let declared = mstp_frame::frame_size(data_length);
    let mut errors = Entries::new();
    errors.add_if(
        preamble != MSTP_PREAMBLE,
        ValidationError::InvalidPreamble {
            expected: MSTP_PREAMBLE,
            found: preamble,
        },
    );
    errors.add_if(
        is_reserved(frame_type),
        ValidationError::InvalidFrameType { value: frame_type },
    );
    errors.add_if(
        source == MSTP_BROADCAST,
        ValidationError::InvalidAddress {
            address: source,
            reason: AddressReason::SourceIsBroadcast,
        },
    );
    errors.add_if(
        MSTP_MAX_DATA_LENGTH < usize::from(data_length),
        ValidationError::InvalidHeader {
            reason: HeaderReason::DataLength(data_length),
        },
    );
    errors.add_if(
        received != calculated,
        ValidationError::CrcMismatch {
            received: u16::from(received),
            calculated: u16::from(calculated),
        },
    );
    errors.add_if(
        declared != size,
        ValidationError::PayloadSizeMismatch {
            declared,
            actual: size,
        },
    );
    errors.add(data_check_error(rule, frame));
    let mut warnings = Entries::new();
    warnings.add_if(
        PROPRIETARY <= frame_type,
        ValidationWarning::NonStandardConfiguration {
            reason: ConfigurationReason::ProprietaryType(frame_type),
        },
    );
    warnings.add_if(
        master_to_slave(rule, frame_type, mstp_frame::destination(frame), source),
        ValidationWarning::NonStandardConfiguration {
            reason: ConfigurationReason::MasterToSlave,
        },
    );
    ValidationResult {
        is_valid: errors.len() == 0,
        link_type: Some(LinkType::MsTP),
        frame_size: size,
        errors,
        warnings,
    }
}

// Whether a frame gives no error: the tests in their order, up to the first that fires.
pub fn errorless(rule: CheckRule, frame: &[u8]) -> bool
    ensures { result ≡ errorless rule frame.now }
{
    MSTP_HEADER_SIZE <= frame.len()
        && mstp_frame::preamble(frame) == MSTP_PREAMBLE
        && !is_reserved(mstp_frame::frame_type(frame))
        && mstp_frame::source(frame) != MSTP_BROADCAST
        && usize::from(mstp_frame::data_length(frame)) <= MSTP_MAX_DATA_LENGTH
        && mstp_decode::checks_question(rule, frame).is_ok()
}

// Whether a test of warnings fires.
fn warned(rule: CheckRule, frame: &[u8]) -> bool
    ensures { result ≡ not (eqb (length (found (warning_tests rule frame.now))) 0) }
{
    let frame_type = mstp_frame::frame_type(frame);
    PROPRIETARY <= frame_type
        || master_to_slave(
            rule,
            frame_type,
            mstp_frame::destination(frame),
            mstp_frame::source(frame),
        )
}

// Whether a frame gives neither an error nor a warning.
pub fn faultless(rule: CheckRule, frame: &[u8]) -> bool
    ensures { result ≡ faultless (mstp_result rule frame.now) }
{
    MSTP_HEADER_SIZE <= frame.len() && !warned(rule, frame) && errorless(rule, frame)
}
