// The cases of check octets and MS/TP frames.
use crate::answers;
use crc::CheckRule;
use mstp_decode::MstpHeader;
use mstp_frame::MstpFrameType;
use octets::Refusal;
use replay_cases::print;

// The header check of five octets, as an array and as a slice.
pub(crate) fn header_check<P: Print>(to: &P, rule: CheckRule, input: &[u8]) {
    let &[a, b, c, d, e] = input else {
        return;
    };
    let checks = [
        crc::calculate_header_crc(rule, [a, b, c, d, e]),
        crc::header_crc(rule, input),
    ];
    answers::print_octets(to, &checks);
}

// Reading: the header or the refusal, then the data.
pub(crate) fn reading<P: Print>(to: &P, rule: CheckRule, frame: &[u8]) {
    match mstp_decode::decode(rule, frame) {
        Ok(header) => print_header(to, header),
        Err(refusal) => answers::print_refusal(to, refusal),
    }
    answers::print_octets(to, mstp_decode::frame_data(rule, frame));
}

// Prints F, the fields of a header, and its data check, if there is one.
fn print_header<P: Print>(to: &P, header: MstpHeader) {
    let octets = [
        u8::from(header.frame_type),
        header.destination,
        header.source,
    ];
    print::letters(to, b"F");
    answers::print_octets(to, &octets);
    print::digits(to, usize::from(header.data_length), 4);
    print::digits(to, usize::from(header.header_crc), 2);
    match header.data_crc {
        Some(check) => print::number(to, usize::from(check), 4),
        None => print::letters(to, b" none"),
    }
}

// Writes a frame: type, destination, source and then the data. None where the octets tell none.
pub(crate) fn write(
    rule: CheckRule,
    input: &[u8],
    out: &mut [u8],
) -> Option<Result<usize, Refusal>> {
    let [frame_type, destination, source, data @ ..] = input else {
        return None;
    };
    let frame_type = MstpFrameType::from_u8(*frame_type)?;
    Some(mstp_encode::encode(rule, frame_type, *destination, *source, data, out))
}
