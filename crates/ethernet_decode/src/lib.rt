// Reading and validating Ethernet frames: `EthernetFrame::decode` and `validate_ethernet_frame` of ethernet.rs, which have
// form EtherType; reading also in form Length, that of clause 7.
#![tactic(auto)]

ghost use Rattle.std.specs.Prelude.{◌≡◌, ◌≤◌, length};
ghost use Rattle.octets.specs.Question.{first_no};
ghost use Rattle.octets.specs.Refusal.{result_of};
ghost use Rattle.ethernet_decode.specs.Decode.{form_questions, decode_question, payload_length, decode, payload, validate};
ghost use Rattle.ethernet_decode.specs.RoundTrip.{WritesBack, FrameOf, OneForm, PayloadOf, Agrees};

use octets::Refusal;

// What stands in the two octets after the addresses.
#[derive(Clone, Copy)]
pub enum EthernetForm {
    // 82 DC, as in the Rust.
    EtherType,
    // How many octets of LLC header and payload there are, high octet first, as in clause 7.
    Length,
}

// The two octets after the addresses in form EtherType.
pub const BACNET_ETHERNET_TYPE: u16 = 0x82DC;

// The LLC header: destination and source service access point, control.
pub const BACNET_LLC_HEADER: [u8; 3] = [0x82, 0x82, 0x03];

// Octets of the addresses and the two after them.
pub const ETHERNET_HEADER_SIZE: usize = 14;

// Octets of the LLC header.
pub const LLC_HEADER_SIZE: usize = 3;

// Octets of both.
pub const BACNET_ETHERNET_HEADER_SIZE: usize = ETHERNET_HEADER_SIZE + LLC_HEADER_SIZE;

// Least and most octets of a frame.
pub const MIN_ETHERNET_FRAME_SIZE: usize = 60;

pub const MAX_ETHERNET_FRAME_SIZE: usize = 1514;

// Most octets that a length counts.
const MAX_LENGTH: usize = MAX_ETHERNET_FRAME_SIZE - ETHERNET_HEADER_SIZE;

// What reading answers: both addresses, and how many octets of payload there are.
#[derive(Clone, Copy)]
pub struct EthernetHeader {
    pub dest_mac: [u8; 6],
    pub src_mac: [u8; 6],
    pub payload_length: usize,
}

// How many octets of payload there are by what a form has after the addresses, or the first of its questions that fails.
fn form_length(form: EthernetForm, frame: &[u8]) -> Result<usize, Refusal>
    requires { 17 ≤ length frame.now }
    ensures { result ≡ result_of (first_no (form_questions form frame.now)) (payload_length form frame.now) }
{
    let size = frame.len();
    let field = u16::from_be_bytes([frame[12], frame[13]]);
    match form {
        EthernetForm::EtherType => {
            if field != BACNET_ETHERNET_TYPE {
                return Err(Refusal::EthernetType);
            }
            Ok(size - BACNET_ETHERNET_HEADER_SIZE)
        }
        EthernetForm::Length => {
            let counted = usize::from(field);
            if MAX_ETHERNET_FRAME_SIZE < size {
                return Err(Refusal::EthernetTooLong);
            }
            if counted < LLC_HEADER_SIZE || MAX_LENGTH < counted {
                return Err(Refusal::LengthField);
            }
            if size - ETHERNET_HEADER_SIZE < counted {
                return Err(Refusal::LengthBeyondEnd);
            }
            Ok(counted - LLC_HEADER_SIZE)
        }
    }
}

// How many octets of payload a frame in a form has, or the first of reading's questions that fails.
fn length_of(form: EthernetForm, frame: &[u8]) -> Result<usize, Refusal>
    ensures { result ≡ result_of (decode_question form frame.now) (payload_length form frame.now) }
{
    if frame.len() < BACNET_ETHERNET_HEADER_SIZE {
        return Err(Refusal::EthernetTooShort);
    }
    let length = form_length(form, frame)?;
    if frame[ETHERNET_HEADER_SIZE..BACNET_ETHERNET_HEADER_SIZE] != BACNET_LLC_HEADER[..] {
        return Err(Refusal::EthernetLlc);
    }
    Ok(length)
}

// Reads a frame in a form: both addresses and the length of its payload, which laid out with the payload are the frame;
// in form Length anything may stand behind it, up to 1514 octets in all. Or the first question that fails. No octets are
// read in both forms.
pub fn decode(form: EthernetForm, frame: &[u8]) -> Result<EthernetHeader, Refusal>
    ensures value { result ≡ decode form frame.now }
    ensures back { WritesBack form frame.now result }
    ensures whole { FrameOf form frame.now result }
    ensures only { OneForm form frame.now result }
{
    let payload_length = length_of(form, frame)?;
    let mut dest_mac = [0; 6];
    dest_mac.copy_from_slice(&frame[..6]);
    let mut src_mac = [0; 6];
    src_mac.copy_from_slice(&frame[6..12]);
    Ok(EthernetHeader {
        dest_mac,
        src_mac,
        payload_length,
    })
}

// The payload of a frame in a form, as a part of its octets: exactly what was laid out. In form EtherType the zeros that
// pad it belong to it, in form Length they don't. Empty where `decode` refuses.
pub fn payload(form: EthernetForm, frame: &[u8]) -> &[u8]
    ensures result_value { result.now ≡ payload form frame.now }
    ensures whole { PayloadOf form frame.now result.now }
{
    match length_of(form, frame) {
        Ok(length) => &frame[BACNET_ETHERNET_HEADER_SIZE..BACNET_ETHERNET_HEADER_SIZE + length],
        Err(_) => &frame[..0],
    }
}

// Whether octets are a frame of form EtherType that may be sent: exactly those that `decode` accepts in that form, up to
// 1514 of them. Or the first of questions 21, 24, 22 and 23 that fails (24 comes first here: what fails it passes 21).
pub fn validate_ethernet_frame(frame: &[u8]) -> Result<(), Refusal>
    ensures value { result ≡ validate frame.now }
    ensures agrees { Agrees frame.now result }
{
    if MAX_ETHERNET_FRAME_SIZE < frame.len() {
        return Err(Refusal::EthernetTooLong);
    }
    length_of(EthernetForm::EtherType, frame)?;
    Ok(())
}
