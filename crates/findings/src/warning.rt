// What is unusual in a frame and leaves it valid: `ValidationWarning` of validation.rs, but for 2, `DeprecatedFrameType`,
// which no validator gives.
ghost use Rattle.std.specs.Prelude.{◌≡◌};
ghost use Rattle.findings.specs.Warning.{configuration_numbers, warning_numbers};

use crate::Finding;

// What is not standard.
#[derive(Clone, Copy)]
pub enum ConfigurationReason {
    // An MS/TP frame of this type, 128 or more.
    ProprietaryType(u8),
    // A master sends to a slave what is not usual there.
    MasterToSlave,
    // A multicast address other than broadcast.
    Multicast,
}

impl ConfigurationReason {
    // The number of a reason, and what was found.
    fn numbers(self) -> [usize; 2]
        ensures { result ≡ configuration_numbers self }
    {
        match self {
            ConfigurationReason::ProprietaryType(frame_type) => [1, usize::from(frame_type)],
            ConfigurationReason::MasterToSlave => [2, 0],
            ConfigurationReason::Multicast => [3, 0],
        }
    }
}

// What may be a risk.
#[derive(Clone, Copy)]
pub enum SecurityReason {
    // Function 0C.
    SecureBvll = 1,
    // Function 01 or 08.
    TableModification = 2,
}

// What is unusual in a frame and leaves it valid.
#[derive(Clone, Copy)]
pub enum ValidationWarning {
    UnusualFrameSize { size: usize },
    NonStandardConfiguration { reason: ConfigurationReason },
    SecurityWarning { reason: SecurityReason },
}

impl Finding for ValidationWarning {
    ghost numbers_of = { warning_numbers };

    fn numbers(self) -> [usize; 3] {
        match self {
            ValidationWarning::UnusualFrameSize { size } => [1, size, 0],
            ValidationWarning::NonStandardConfiguration { reason } => {
                let [number, found] = reason.numbers();
                [3, number, found]
            }
            ValidationWarning::SecurityWarning { reason } => [4, reason as usize, 0],
        }
    }
}
