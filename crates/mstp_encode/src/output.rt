// The parts of a frame, each put at a place of a lent output. Answers the place behind it.
ghost use Rattle.std.specs.Prelude.{◌+◌, ◌≤◌, length};
ghost use Rattle.octets.specs.Put.{Put};
ghost use Rattle.mstp_decode.specs.Frame.{header_fields, header_octets, data_octets};

use crc::CheckRule;
use mstp_frame::{MSTP_PREAMBLE_55, MSTP_PREAMBLE_FF, MstpFrameType};

// A header that says n data octets, in front.
pub(crate) fn put_header(
    rule: CheckRule,
    frame_type: MstpFrameType,
    destination: u8,
    source: u8,
    n: u16,
    out: &mut [u8],
) -> usize
    requires { 8 ≤ length out.old }
    ensures { Put (header_octets rule (header_fields frame_type destination source n)) out.old 0 out.new result }
{
    let number = u8::from(frame_type);
    let [high, low] = n.to_be_bytes();
    let check = crc::calculate_header_crc(rule, [number, destination, source, high, low]);
    let header = [
        MSTP_PREAMBLE_55,
        MSTP_PREAMBLE_FF,
        number,
        destination,
        source,
        high,
        low,
        check,
    ];
    octets::put(&header, out, 0)
}

// The data and their check, low octet first; nothing where there are no data.
pub(crate) fn put_data(rule: CheckRule, body: &[u8], out: &mut [u8], at: usize) -> usize
    requires { at + length (data_octets rule body.now) ≤ length out.old }
    ensures { Put (data_octets rule body.now) out.old at out.new result }
{
    if body.is_empty() {
        return at;
    }
    let check = crc::crc16_mstp(rule, body);
    let behind = octets::put(body, out, at);
    octets::put(&check.to_le_bytes(), out, behind)
}
