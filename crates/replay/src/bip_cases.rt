// The cases of BVLC messages.
use crate::answers;
use bip_header::{BvlcFunction, BvlcHeader};
use bip_message::BvlcMessage;
use octets::Refusal;
use replay_cases::print;

// Reading of the header in front.
pub(crate) fn header<P: Print>(to: &P, input: &[u8]) {
    match bip_header::decode(input) {
        Ok(header) => print_header(to, header),
        Err(refusal) => answers::print_refusal(to, refusal),
    }
}

// Prints F and the fields of a header.
fn print_header<P: Print>(to: &P, header: BvlcHeader) {
    let octets = [header.bvlc_type, u8::from(header.function)];
    print::letters(to, b"F");
    answers::print_octets(to, &octets);
    print::digits(to, usize::from(header.length), 4);
}

// What a message carries, then its NPDU.
pub(crate) fn npdu<P: Print>(to: &P, input: &[u8]) {
    match bip_message::process_bvlc_message(input) {
        Ok(BvlcMessage::Npdu(_)) => print::letters(to, b"N"),
        Ok(BvlcMessage::TimeToLive(seconds)) => {
            print::labelled(to, b"T", usize::from(seconds), 4);
        }
        Ok(BvlcMessage::NoNpdu) => print::letters(to, b"O"),
        Err(refusal) => answers::print_refusal(to, refusal),
    }
    answers::print_octets(to, bip_message::npdu(input));
}

// Writes a header: function and length. None where the octets tell none.
pub(crate) fn write(input: &[u8], out: &mut [u8]) -> Option<Result<usize, Refusal>> {
    let &[function, high, low, ..] = input else {
        return None;
    };
    let function = BvlcFunction::try_from(function).ok()?;
    Some(bip_header::encode(function, u16::from_be_bytes([high, low]), out))
}
