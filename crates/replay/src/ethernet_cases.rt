// The cases of Ethernet frames.
use crate::answers;
use ethernet_decode::EthernetForm;
use octets::Refusal;
use replay_cases::print;

// Validating: F, or the refusal.
pub(crate) fn validation<P: Print>(to: &P, input: &[u8]) {
    match ethernet_decode::validate_ethernet_frame(input) {
        Ok(()) => print::letters(to, b"F"),
        Err(refusal) => answers::print_refusal(to, refusal),
    }
}

// Reading in a form: F or the refusal, then the addresses, zeros where there is a refusal, and the payload.
pub(crate) fn reading<P: Print>(to: &P, form: EthernetForm, input: &[u8]) {
    match ethernet_decode::decode(form, input) {
        Ok(header) => {
            print::letters(to, b"F");
            answers::print_octets(to, &header.dest_mac);
            answers::print_octets(to, &header.src_mac);
        }
        Err(refusal) => {
            answers::print_refusal(to, refusal);
            answers::print_octets(to, &[0; 6]);
            answers::print_octets(to, &[0; 6]);
        }
    }
    answers::print_octets(to, ethernet_decode::payload(form, input));
}

// Writes a frame of a form: destination, source and then the payload. None where the octets tell none.
pub(crate) fn write(
    form: EthernetForm,
    input: &[u8],
    out: &mut [u8],
) -> Option<Result<usize, Refusal>> {
    let (dest_mac, rest) = input.split_first_chunk::<6>()?;
    let (src_mac, payload) = rest.split_first_chunk::<6>()?;
    Some(ethernet_encode::encode(form, *dest_mac, *src_mac, payload, out))
}
