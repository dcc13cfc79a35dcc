// The validator of Ethernet frames in validation.rs: `validate_ethernet_frame`.
#![tactic(auto)]

ghost use Rattle.std.specs.Prelude.{◌≡◌};
ghost use Rattle.findings.specs.Result.{faultless};
ghost use Rattle.validation_ethernet.specs.Tests.{broadcast, multicast, ethernet_result};
ghost use Rattle.validation_ethernet.specs.Validity.{AgreesWithEthernet};

use ethernet_decode::{
    BACNET_ETHERNET_HEADER_SIZE, BACNET_ETHERNET_TYPE, MAX_ETHERNET_FRAME_SIZE,
    MIN_ETHERNET_FRAME_SIZE,
};
use findings::{
    ConfigurationReason, Entries, HeaderReason, LinkType, ValidationError, ValidationResult,
    ValidationWarning,
};

// The LLC header of BACnet frames as one number.
const BACNET_LLC: u32 = 0x828203;

// Whether an address is the broadcast address.
fn is_broadcast(address: [u8; 6]) -> bool
    ensures { result ≡ broadcast address }
{
    runs::same_from(&address, 0, 0xFF) == address.len()
}

// Whether an address is a multicast address other than broadcast.
fn is_multicast(address: [u8; 6]) -> bool
    ensures { result ≡ multicast address }
{
    address[0] % 2 == 1 && !is_broadcast(address)
}

// Checks a frame: every error and warning that it gives, in the Rust's order. Valid are exactly the octets that
// ethernet.rs's validator accepts.
pub fn validate_ethernet_frame(frame: &[u8]) -> ValidationResult
    ensures value { result ≡ ethernet_result frame.now }
    ensures agrees { AgreesWithEthernet frame.now result.is_valid }
{
    let size = frame.len();
    let [
        a,
        b,
        c,
        d,
        e,
        f,
        _,
        _,
        _,
        _,
        _,
        _,
        high,
        low,
        dsap,
        ssap,
        control,
        ..
    ] = frame
    else {
        return ValidationResult::too_short(
            Some(LinkType::Ethernet),
            size,
            BACNET_ETHERNET_HEADER_SIZE,
        );
    };
    let ether_type = u16::from_be_bytes([*high, *low]);
    let llc = u32::from_be_bytes([0, *dsap, *ssap, *control]);
    let mut errors = Entries::new();
    errors.add_if(
        MAX_ETHERNET_FRAME_SIZE < size,
        ValidationError::FrameTooLong {
            size,
            maximum: MAX_ETHERNET_FRAME_SIZE,
        },
    );
    errors.add_if(
        ether_type != BACNET_ETHERNET_TYPE,
        ValidationError::InvalidHeader {
            reason: HeaderReason::EthernetType(ether_type),
        },
    );
    errors.add_if(
        llc != BACNET_LLC,
        ValidationError::InvalidHeader {
            reason: HeaderReason::LlcHeader(llc),
        },
    );
    let mut warnings = Entries::new();
    warnings.add_if(
        is_multicast([*a, *b, *c, *d, *e, *f]),
        ValidationWarning::NonStandardConfiguration {
            reason: ConfigurationReason::Multicast,
        },
    );
    warnings.add_if(
        size == MIN_ETHERNET_FRAME_SIZE,
        ValidationWarning::UnusualFrameSize { size },
    );
    ValidationResult {
        is_valid: errors.len() == 0,
        link_type: Some(LinkType::Ethernet),
        frame_size: size,
        errors,
        warnings,
    }
}

// Whether a frame gives neither an error nor a warning.
pub fn faultless(frame: &[u8]) -> bool
    ensures { result ≡ faultless (ethernet_result frame.now) }
{
    let [
        a,
        b,
        c,
        d,
        e,
        f,
        _,
        _,
        _,
        _,
        _,
        _,
        high,
        low,
        dsap,
        ssap,
        control,
        ..
    ] = frame
    else {
        return false;
    };
    frame.len() <= MAX_ETHERNET_FRAME_SIZE
        && u16::from_be_bytes([*high, *low]) == BACNET_ETHERNET_TYPE
        && u32::from_be_bytes([0, *dsap, *ssap, *control]) == BACNET_LLC
        && frame.len() != MIN_ETHERNET_FRAME_SIZE
        && !is_multicast([*a, *b, *c, *d, *e, *f])
}
