// What makes a frame invalid: `ValidationError` of validation.rs. A reason has what was found, where the Rust has a text.
ghost use Rattle.std.specs.Prelude.{◌≡◌};
ghost use Rattle.findings.specs.Error.{address_number, header_numbers, error_numbers};

use crate::Finding;

// Why an address is wrong.
#[derive(Clone, Copy)]
pub enum AddressReason {
    // The source is the address of all stations.
    SourceIsBroadcast = 1,
}

// Why a header is wrong, and what was found.
#[derive(Clone, Copy)]
pub enum HeaderReason {
    // A data length above 501.
    DataLength(u16),
    // Another type than 82 DC.
    EthernetType(u16),
    // Another LLC header than 82 82 03.
    LlcHeader(u32),
    // The octets tell no link.
    Undetermined,
}

impl HeaderReason {
    // The number of a reason, and what was found.
    fn numbers(self) -> [usize; 2]
        ensures { result ≡ header_numbers self }
    {
        match self {
            HeaderReason::DataLength(length) => [1, usize::from(length)],
            HeaderReason::EthernetType(found) => [2, usize::from(found)],
            HeaderReason::LlcHeader(found) => [3, found as usize],
            HeaderReason::Undetermined => [4, 0],
        }
    }
}

// What makes a frame invalid.
#[derive(Clone, Copy)]
pub enum ValidationError {
    FrameTooShort { size: usize, minimum: usize },
    FrameTooLong { size: usize, maximum: usize },
    InvalidPreamble { expected: u16, found: u16 },
    CrcMismatch { received: u16, calculated: u16 },
    InvalidFrameType { value: u8 },
    InvalidAddress { address: u8, reason: AddressReason },
    InvalidHeader { reason: HeaderReason },
    PayloadSizeMismatch { declared: usize, actual: usize },
}

impl Finding for ValidationError {
    ghost numbers_of = { error_numbers };

    fn numbers(self) -> [usize; 3] {
        match self {
            ValidationError::FrameTooShort { size, minimum } => [1, size, minimum],
            ValidationError::FrameTooLong { size, maximum } => [2, size, maximum],
            ValidationError::InvalidPreamble { expected, found } => {
                [3, usize::from(expected), usize::from(found)]
            }
            ValidationError::CrcMismatch {
                received,
                calculated,
            } => [4, usize::from(received), usize::from(calculated)],
            ValidationError::InvalidFrameType { value } => [5, usize::from(value), 0],
            ValidationError::InvalidAddress { address, reason } => {
                [6, usize::from(address), reason as usize]
            }
            ValidationError::InvalidHeader { reason } => {
                let [number, found] = reason.numbers();
                [7, number, found]
            }
            ValidationError::PayloadSizeMismatch { declared, actual } => [8, declared, actual],
        }
    }
}
