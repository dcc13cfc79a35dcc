// BVLC messages.
ghost use Rattle.std.specs.Prelude.{◌≡◌, length};
ghost use Rattle.bip_header.specs.Header.{decode, encode_answer, encode_output};
ghost use Rattle.bip_message.specs.Message.{process};
ghost use Rattle.answers.specs.Parts.{NpduNamed};
ghost use Rattle.numbers.specs.Named.{of_function};
ghost use Rattle.numbers.specs.Layout.{bvlc_numbers};
ghost use Rattle.octets.specs.Answer.{answer_number, made_of};
ghost use Rattle.answers.specs.Told.{no_case, count_or, carried_numbers};

use answers::NO_CASE;
use bip_header::BvlcFunction;

// Reads the header in front of a message, into `header`.
#[unsafe(no_mangle)]
pub extern "C" fn lefkanu_bvlc_decode(message: &[u8], header: &mut [usize; 2]) -> u8
    ensures value { result ≡ answer_number (decode message.now) }
    ensures header { header.new ≡ made_of bvlc_numbers header.old (decode message.now) }
{
    answers::tell(bip_header::decode(message), header)
}

// Writes a header at the front of `out`, whose rest stays, and its octet count into `count`.
#[unsafe(no_mangle)]
pub extern "C" fn lefkanu_bvlc_encode(
    function: u8,
    length: u16,
    out: &mut [u8],
    count: &mut usize,
) -> u8
    ensures value { result ≡ of_function function (λ known. answer_number (encode_answer known length out.old)) no_case }
    ensures output { out.new
        ≡ of_function function (λ known. encode_output known length out.old) out.old }
    ensures count { count.new
        ≡ of_function function (λ known. count_or count.old (encode_answer known length out.old))
        count.old }
{
    let Ok(function) = BvlcFunction::try_from(function) else {
        return NO_CASE;
    };
    answers::tell_count(bip_header::encode(function, length, out), count)
}

// What a message carries, into `carried`; the part of the message that the last two numbers of an NPDU name is the NPDU.
#[tactic(auto, using(crate::proofs::Parts::npdu_named))]
#[unsafe(no_mangle)]
pub extern "C" fn lefkanu_process_bvlc_message(message: &[u8], carried: &mut [usize; 3]) -> u8
    ensures value { result ≡ answer_number (process message.now) }
    ensures carried { carried.new
        ≡ made_of (carried_numbers (length message.now)) carried.old (process message.now) }
    ensures part { NpduNamed (process message.now) carried.new message.now }
{
    answers::tell_message(
        bip_message::process_bvlc_message(message),
        message.len(),
        carried,
    )
}
