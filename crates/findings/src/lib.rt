// The findings of the validators and the result that holds them: validation.rs.
#![tactic(auto)]

mod entries;
mod error;
mod warning;

ghost use Rattle.std.specs.Prelude.{◌≡◌, ℕ, List, [], ◌∷◌, Some};
ghost use Rattle.findings.specs.Entries.{entry_numbers};
ghost use Rattle.findings.specs.declared.error.ValidationError.TheVariants.{FrameTooShort};
ghost use Rattle.findings.specs.Link.{link_number};
ghost use Rattle.findings.specs.Result.{validation_result, no_result};

pub use entries::Entries;
pub use error::{AddressReason, HeaderReason, ValidationError};
use std::marker::Model;
pub use warning::{ConfigurationReason, SecurityReason, ValidationWarning};

// What a validator finds: an error or a warning.
pub trait Finding: Copy {
    // The three numbers of a finding.
    ghost numbers_of: { Self → List ℕ };

    // The three numbers of a finding: its kind, and what goes with it.
    fn numbers(self) -> [usize; 3]
        ensures { result ≡ numbers_of self };
}

// The three numbers of an entry: 0 where it is unused.
pub fn entry_numbers<F: Finding>(entry: Option<F>) -> [usize; 3]
    ensures { result ≡ entry_numbers F.numbers_of entry }
{
    match entry {
        None => [0, 0, 0],
        Some(finding) => finding.numbers(),
    }
}

// The links that a validator tells apart: those of the Rust's `DataLinkType`.
#[derive(Clone, Copy)]
pub enum LinkType {
    BacnetIp = 1,
    Ethernet = 2,
    MsTP = 3,
}

impl From<LinkType> for u8 {
    ghost from_gives = { λ link n. n ≡ link_number (Some link) };

    fn from(link: LinkType) -> u8 {
        link as u8
    }
}

// The number of the link that a frame was taken for, 0 where there is none.
pub fn link_number(link: Option<LinkType>) -> u8
    ensures { result ≡ link_number link }
{
    link.map_or(0, u8::from)
}

// What a validator answers. Valid means no errors.
#[derive(Clone, Copy)]
pub struct ValidationResult {
    pub is_valid: bool,
    // The link that the frame was taken for, if one was.
    pub link_type: Option<LinkType>,
    pub frame_size: usize,
    pub errors: Entries<ValidationError, 7>,
    pub warnings: Entries<ValidationWarning, 2>,
}

// A contract sees the fields. With this a result is copied where it is used twice.
impl Model for ValidationResult {
    ghost use Rattle.findings.specs.Outcome.{Outcome};

    ghost Value = { Outcome };

    ghost view = { λ a. record {
      is_valid = a.is_valid;
      link_type = a.link_type;
      frame_size = a.frame_size;
      errors = a.errors;
      warnings = a.warnings;
    } };

    ghost inverse = { λ v. record {
      is_valid = v.is_valid;
      link_type = v.link_type;
      frame_size = v.frame_size;
      errors = v.errors;
      warnings = v.warnings;
    } };
}

impl ValidationResult {
    // Zeros: what stands where nothing was validated.
    pub fn zeros() -> ValidationResult
        ensures { result ≡ no_result }
    {
        ValidationResult {
            is_valid: false,
            link_type: None,
            frame_size: 0,
            errors: Entries::new(),
            warnings: Entries::new(),
        }
    }

    // A result with one error alone.
    pub fn one_error(
        link_type: Option<LinkType>,
        frame_size: usize,
        error: ValidationError,
    ) -> ValidationResult
        ensures { result ≡ validation_result link_type frame_size (error ∷ []) [] }
    {
        let mut errors = Entries::new();
        errors.add(Some(error));
        ValidationResult {
            is_valid: false,
            link_type,
            frame_size,
            errors,
            warnings: Entries::new(),
        }
    }

    // A result of a frame with fewer octets than the least that it must have: that error alone.
    pub fn too_short(
        link_type: Option<LinkType>,
        frame_size: usize,
        minimum: usize,
    ) -> ValidationResult
        ensures { result ≡ validation_result link_type frame_size (FrameTooShort frame_size minimum ∷ []) [] }
    {
        let error = ValidationError::FrameTooShort {
            size: frame_size,
            minimum,
        };
        ValidationResult::one_error(link_type, frame_size, error)
    }
}
