// Ethernet frames: those of form EtherType, and those of the form that a number names.
ghost use Rattle.std.specs.Prelude.{◌≡◌, []};
ghost use Rattle.ethernet_decode.specs.declared.EthernetForm.TheVariants.{EtherType};
ghost use Rattle.ethernet_decode.specs.Decode.{decode, payload, validate};
ghost use Rattle.ethernet_encode.specs.Encode.{encode_answer, encode_output};
ghost use Rattle.answers.specs.Parts.{part_named};
ghost use Rattle.numbers.specs.Named.{in_form};
ghost use Rattle.octets.specs.Answer.{answer_number};
ghost use Rattle.answers.specs.Told.{no_case, count_or, decoded_destination, decoded_source, decoded_payload};

use answers::NO_CASE;
use ethernet_decode::EthernetForm;

// Reads a frame in form EtherType: both addresses; and place and octet count of its payload, into `payload_part`.
#[tactic(auto, using(crate::proofs::Parts::payload_named))]
#[unsafe(no_mangle)]
pub extern "C" fn lefkanu_ethernet_decode(
    frame: &[u8],
    dest_mac: &mut [u8; 6],
    src_mac: &mut [u8; 6],
    payload_part: &mut [usize; 2],
) -> u8
    ensures value { result ≡ answer_number (decode EtherType frame.now) }
    ensures destination { dest_mac.new
        ≡ decoded_destination dest_mac.old (decode EtherType frame.now) }
    ensures source { src_mac.new
        ≡ decoded_source src_mac.old (decode EtherType frame.now) }
    ensures payload { payload_part.new
        ≡ decoded_payload payload_part.old (decode EtherType frame.now) }
    ensures part { result ≡ 0
        → part_named 0 payload_part.new frame.now ≡ payload EtherType frame.now }
{
    let answer = ethernet_decode::decode(EthernetForm::EtherType, frame);
    answers::tell_ethernet(answer, dest_mac, src_mac, payload_part)
}

// The same in the form of a number.
#[tactic(auto, using(crate::proofs::Parts::payload_named))]
#[unsafe(no_mangle)]
pub extern "C" fn lefkanu_ethernet_decode_form(
    form: u8,
    frame: &[u8],
    dest_mac: &mut [u8; 6],
    src_mac: &mut [u8; 6],
    payload_part: &mut [usize; 2],
) -> u8
    ensures value { result ≡ in_form form (λ form. answer_number (decode form frame.now)) no_case }
    ensures destination { dest_mac.new ≡ in_form form
        (λ form. decoded_destination dest_mac.old (decode form frame.now)) dest_mac.old }
    ensures source { src_mac.new ≡ in_form form
        (λ form. decoded_source src_mac.old (decode form frame.now)) src_mac.old }
    ensures payload { payload_part.new ≡ in_form form
        (λ form. decoded_payload payload_part.old (decode form frame.now)) payload_part.old }
    ensures part { result ≡ 0
        → part_named 0 payload_part.new frame.now ≡ in_form form (λ form. payload form frame.now) [] }
{
    let Some(form) = numbers::form_named(form) else {
        return NO_CASE;
    };
    let answer = ethernet_decode::decode(form, frame);
    answers::tell_ethernet(answer, dest_mac, src_mac, payload_part)
}

// Whether octets are a frame of form EtherType that may be sent: the validator of ethernet.rs.
#[unsafe(no_mangle)]
pub extern "C" fn lefkanu_ethernet_validate(frame: &[u8]) -> u8
    ensures { result ≡ answer_number (validate frame.now) }
{
    answers::answer_number(&ethernet_decode::validate_ethernet_frame(frame))
}

// Writes a frame in form EtherType at the front of `out`, whose rest stays, and its octet count into `count`.
#[unsafe(no_mangle)]
pub extern "C" fn lefkanu_ethernet_encode(
    dest_mac: &[u8; 6],
    src_mac: &[u8; 6],
    body: &[u8],
    out: &mut [u8],
    count: &mut usize,
) -> u8
    ensures value { result ≡ answer_number
        (encode_answer EtherType dest_mac.now src_mac.now body.now out.old) }
    ensures output { out.new
        ≡ encode_output EtherType dest_mac.now src_mac.now body.now out.old }
    ensures count { count.new ≡ count_or count.old
        (encode_answer EtherType dest_mac.now src_mac.now body.now out.old) }
{
    let answer = ethernet_encode::encode(EthernetForm::EtherType, *dest_mac, *src_mac, body, out);
    answers::tell_count(answer, count)
}

// The same in the form of a number.
#[unsafe(no_mangle)]
pub extern "C" fn lefkanu_ethernet_encode_form(
    form: u8,
    dest_mac: &[u8; 6],
    src_mac: &[u8; 6],
    body: &[u8],
    out: &mut [u8],
    count: &mut usize,
) -> u8
    ensures value { result ≡ in_form form (λ form. answer_number
        (encode_answer form dest_mac.now src_mac.now body.now out.old))
        no_case }
    ensures output { out.new ≡ in_form form (λ form.
        encode_output form dest_mac.now src_mac.now body.now out.old)
        out.old }
    ensures count { count.new ≡ in_form form (λ form. count_or count.old
        (encode_answer form dest_mac.now src_mac.now body.now out.old))
        count.old }
{
    let Some(form) = numbers::form_named(form) else {
        return NO_CASE;
    };
    let answer = ethernet_encode::encode(form, *dest_mac, *src_mac, body, out);
    answers::tell_count(answer, count)
}
