// The errors of the data links: datalink/mod.rs.
#![tactic(auto)]

ghost use Rattle.std.specs.Prelude.{◌≡◌};
ghost use Rattle.datalink.specs.Error.{error_of};

// The questions about check octets.
const HEADER_CHECK: u8 = 4;

const DATA_CHECK: u8 = 6;

// The Rust's errors for questions.
#[derive(Clone, Copy)]
pub enum DataLinkError {
    InvalidFrame,
    CrcError,
}

// The Rust's error for a question's number, if the Rust asks that question too: of MS/TP, of BVLC messages, of Ethernet with
// 82 DC.
#[tactic(auto, unfolding(octets::specs::Range::within))]
pub fn data_link_error(question: u8) -> Option<DataLinkError>
    ensures { result ≡ error_of question }
{
    match question {
        HEADER_CHECK | DATA_CHECK => Some(DataLinkError::CrcError),
        1..=7 | 11..=15 | 21..=24 => Some(DataLinkError::InvalidFrame),
        _ => None,
    }
}
