// Writing Ethernet frames: `EthernetFrame::encode` of ethernet.rs under the size test of `send_ethernet_frame`, which has
// form EtherType; also in form Length, that of clause 7.
#![tactic(auto)]

ghost use Rattle.std.specs.Prelude.{◌≡◌, ◌≤◌, length};
ghost use Rattle.octets.specs.Output.{at_front};
ghost use Rattle.ethernet_decode.specs.Frame.{field, header_octets};
ghost use Rattle.ethernet_decode.specs.declared.EthernetForm.TheVariants.{EtherType, Length};
ghost use Rattle.ethernet_encode.specs.Encode.{encode_answer, encode_output};
ghost use Rattle.ethernet_encode.specs.RoundTrip.{ReadsBack, WritesAnew, Edge};

use ethernet_decode::{
    BACNET_ETHERNET_HEADER_SIZE, BACNET_ETHERNET_TYPE, BACNET_LLC_HEADER, EthernetForm,
    LLC_HEADER_SIZE, MAX_ETHERNET_FRAME_SIZE, MIN_ETHERNET_FRAME_SIZE,
};
use octets::Refusal;

// Most payload octets of a written frame.
const MAX_PAYLOAD_SIZE: usize = MAX_ETHERNET_FRAME_SIZE - BACNET_ETHERNET_HEADER_SIZE;

// The number in the two octets after the addresses, before n octets of payload.
fn field(form: EthernetForm, n: usize) -> u16
    requires { n ≤ 1497 }
    ensures { result ≡ field form n }
{
    match form {
        EthernetForm::EtherType => BACNET_ETHERNET_TYPE,
        EthernetForm::Length => (LLC_HEADER_SIZE + n) as u16,
    }
}

// Writes what stands before the payload: the addresses, the two octets after them and the LLC header.
fn write_header(field: u16, dest_mac: [u8; 6], src_mac: [u8; 6], out: &mut [u8])
    requires { 17 ≤ length out.old }
    ensures { out.new ≡ at_front (header_octets field dest_mac src_mac) out.old }
{
    out[..6].copy_from_slice(&dest_mac);
    out[6..12].copy_from_slice(&src_mac);
    out[12..14].copy_from_slice(&field.to_be_bytes());
    out[14..17].copy_from_slice(&BACNET_LLC_HEADER);
}

// Writes a frame in a form at the front of `out`, whose rest stays, and answers its octet count: `decode` accepts those
// octets and gives back the addresses, `payload` the payload, in form EtherType with the zeros that pad it. Written from
// what was read of 60 to 1514 octets, if behind the payload stand zeros up to 60 and no more, the frame is those octets.
// Or refuses by the first question that fails, and writes nothing.
pub fn encode(
    form: EthernetForm,
    dest_mac: [u8; 6],
    src_mac: [u8; 6],
    body: &[u8],
    out: &mut [u8],
) -> Result<usize, Refusal>
    ensures value { result ≡ encode_answer form dest_mac src_mac body.now out.old }
    ensures output { out.new ≡ encode_output form dest_mac src_mac body.now out.old }
    ensures back { ReadsBack form dest_mac src_mac body.now out.old out.new result }
    ensures anew { WritesAnew form dest_mac src_mac body.now out.old out.new result }
    ensures edges { (Edge EtherType 43 × Edge EtherType 1497) × (Edge Length 0 × Edge Length 1497) }
{
    if MAX_PAYLOAD_SIZE < body.len() {
        return Err(Refusal::EthernetTooLong);
    }
    let end = BACNET_ETHERNET_HEADER_SIZE + body.len();
    let size = end.max(MIN_ETHERNET_FRAME_SIZE);
    if out.len() < size {
        return Err(Refusal::EthernetOutputTooShort);
    }
    write_header(field(form, body.len()), dest_mac, src_mac, out);
    out[BACNET_ETHERNET_HEADER_SIZE..end].copy_from_slice(body);
    out[end..size].fill(0);
    Ok(size)
}
