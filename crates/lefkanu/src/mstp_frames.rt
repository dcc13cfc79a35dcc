// MS/TP frames, and the Rust's errors.
ghost use Rattle.std.specs.Prelude.{◌≡◌, []};
ghost use Rattle.datalink.specs.Error.{error_of};
ghost use Rattle.mstp_decode.specs.Decode.{decode, frame_data};
ghost use Rattle.mstp_encode.specs.Encode.{encode_answer, encode_output};
ghost use Rattle.answers.specs.Parts.{part_named};
ghost use Rattle.numbers.specs.Layout.{error_number, header_numbers};
ghost use Rattle.numbers.specs.Named.{under_rule, of_type};
ghost use Rattle.octets.specs.Answer.{answer_number, made_of};
ghost use Rattle.answers.specs.Told.{no_case, count_or};

use answers::NO_CASE;
use mstp_frame::MstpFrameType;

// The Rust's error for a question: 1 `InvalidFrame`, 2 `CrcError`, 0 where it does not ask the question.
#[unsafe(no_mangle)]
pub extern "C" fn lefkanu_data_link_error(question: u8) -> u8
    ensures { result ≡ error_number (error_of question) }
{
    numbers::error_number(datalink::data_link_error(question))
}

// Reads a frame: its header into `header`, whose last two numbers name the part of the frame that is its data.
#[tactic(auto, using(crate::proofs::Parts::data_named))]
#[unsafe(no_mangle)]
pub extern "C" fn lefkanu_mstp_decode(rule: u8, frame: &[u8], header: &mut [usize; 8]) -> u8
    ensures value { result ≡ under_rule rule (λ rule. answer_number (decode rule frame.now)) no_case }
    ensures header { header.new
        ≡ under_rule rule (λ rule. made_of header_numbers header.old (decode rule frame.now)) header.old }
    ensures part { result ≡ 0
        → part_named 6 header.new frame.now ≡ under_rule rule (λ rule. frame_data rule frame.now) [] }
{
    let Some(rule) = numbers::rule_named(rule) else {
        return NO_CASE;
    };
    answers::tell(mstp_decode::decode(rule, frame), header)
}

// Writes a frame at the front of `out`, whose rest stays, and its octet count into `count`.
#[unsafe(no_mangle)]
pub extern "C" fn lefkanu_mstp_encode(
    rule: u8,
    frame_type: u8,
    destination: u8,
    source: u8,
    body: &[u8],
    out: &mut [u8],
    count: &mut usize,
) -> u8
    ensures value { result ≡ under_rule rule
        (λ rule. of_type frame_type
        (λ type. answer_number (encode_answer rule type destination source body.now out.old))
        no_case)
        no_case }
    ensures output { out.new ≡ under_rule rule
        (λ rule. of_type frame_type
        (λ type. encode_output rule type destination source body.now out.old)
        out.old)
        out.old }
    ensures count { count.new ≡ under_rule rule
        (λ rule. of_type frame_type
        (λ type. count_or count.old
        (encode_answer rule type destination source body.now out.old))
        count.old)
        count.old }
{
    let Some(rule) = numbers::rule_named(rule) else {
        return NO_CASE;
    };
    let Some(frame_type) = MstpFrameType::from_u8(frame_type) else {
        return NO_CASE;
    };
    let answer = mstp_encode::encode(rule, frame_type, destination, source, body, out);
    answers::tell_count(answer, count)
}
