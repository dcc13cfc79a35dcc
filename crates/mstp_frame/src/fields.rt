// The octets of a frame by their places. Every reader takes any octets: one that is not there counts as 0.
ghost use Rattle.std.specs.Prelude.{◌≡◌, get_or, take, drop};
ghost use Rattle.mstp_frame.specs.Fields.{preamble, begins_preamble, frame_type, destination_of, source_of, data_length};
ghost use Rattle.mstp_frame.specs.Fields.{header_check_sent, fields_part, field_octets, data_part, data_check_sent};

use crate::{MSTP_HEADER_SIZE, MSTP_PREAMBLE_55, MSTP_PREAMBLE_FF};

// Places of a frame's octets. The data stand behind the header.
const PREAMBLE: usize = 0;

const FRAME_TYPE: usize = 2;

const DESTINATION: usize = 3;

const SOURCE: usize = 4;

const DATA_LENGTH: usize = 5;

const HEADER_CHECK: usize = 7;

// The octet at a place; 0 where there is none.
fn octet_at(frame: &[u8], i: usize) -> u8
    ensures { result ≡ get_or frame.now i 0 }
{
    frame.get(i).copied().unwrap_or(0)
}

// The n octets from a place on, or as many of them as are there.
fn part(frame: &[u8], from: usize, n: usize) -> &[u8]
    ensures { result.now ≡ take n (drop from frame.now) }
{
    let rest = &frame[from.min(frame.len())..];
    &rest[..n.min(rest.len())]
}

// The first two octets, as one number.
pub fn preamble(frame: &[u8]) -> u16
    ensures { result ≡ preamble frame.now }
{
    octets::number(octet_at(frame, PREAMBLE), octet_at(frame, PREAMBLE + 1))
}

// Whether they are 55 FF.
#[tactic(auto, unfolding(crate::specs::Fields::begins_preamble))]
pub fn begins_preamble(frame: &[u8]) -> bool
    ensures { result ≡ begins_preamble frame.now }
{
    matches!(frame, [MSTP_PREAMBLE_55, MSTP_PREAMBLE_FF, ..])
}

// The number of the type.
pub fn frame_type(frame: &[u8]) -> u8
    ensures { result ≡ frame_type frame.now }
{
    octet_at(frame, FRAME_TYPE)
}

// The destination.
pub fn destination(frame: &[u8]) -> u8
    ensures { result ≡ destination_of frame.now }
{
    octet_at(frame, DESTINATION)
}

// The source.
pub fn source(frame: &[u8]) -> u8
    ensures { result ≡ source_of frame.now }
{
    octet_at(frame, SOURCE)
}

// The data length that the header says.
#[tactic(auto, unfolding(crate::specs::Fields::data_length))]
pub fn data_length(frame: &[u8]) -> u16
    ensures { result ≡ data_length frame.now }
{
    octets::number(
        octet_at(frame, DATA_LENGTH),
        octet_at(frame, DATA_LENGTH + 1),
    )
}

// The header check that was sent.
pub fn header_check_sent(frame: &[u8]) -> u8
    ensures { result ≡ header_check_sent frame.now }
{
    octet_at(frame, HEADER_CHECK)
}

// The octets from the type to the data length, which the header check covers.
pub fn fields_part(frame: &[u8]) -> &[u8]
    ensures { result.now ≡ fields_part frame.now }
{
    part(frame, FRAME_TYPE, HEADER_CHECK - FRAME_TYPE)
}

// The same octets by value.
pub fn field_octets(frame: &[u8]) -> [u8; 5]
    ensures { result ≡ field_octets frame.now }
{
    [
        frame_type(frame),
        destination(frame),
        source(frame),
        octet_at(frame, DATA_LENGTH),
        octet_at(frame, DATA_LENGTH + 1),
    ]
}

// As many octets behind the header as the data length says.
#[tactic(auto, unfolding(crate::specs::Fields::data_part))]
pub fn data_part(frame: &[u8]) -> &[u8]
    ensures { result.now ≡ data_part frame.now }
{
    part(frame, MSTP_HEADER_SIZE, usize::from(data_length(frame)))
}

// The data check that was sent behind them.
#[tactic(auto, unfolding(crate::specs::Fields::data_check_sent))]
pub fn data_check_sent(frame: &[u8]) -> u16
    ensures { result ≡ data_check_sent frame.now }
{
    let end = usize::from(data_length(frame)) + MSTP_HEADER_SIZE;
    octets::number(octet_at(frame, end + 1), octet_at(frame, end))
}
