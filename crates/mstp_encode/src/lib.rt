// Writing MS/TP frames under either check rule: mstp.rs.
#![tactic(auto)]

mod output;

ghost use Rattle.std.specs.Prelude.{◌≡◌};
ghost use Rattle.mstp_encode.specs.Encode.{encode_answer, encode_output};
ghost use Rattle.octets.specs.Output.{InFront};
ghost use Rattle.mstp_decode.specs.Change.{WrittenFrame};
ghost use Rattle.mstp_decode.specs.RoundTrip.{ReadsBack};

use crc::CheckRule;
use mstp_frame::{MSTP_MAX_DATA_LENGTH, MstpFrameType};
use octets::Refusal;

// Writes a frame at the front of `out`, whose rest stays, and answers its octet count: `decode` accepts those octets and
// gives back what was written, and what it promises of changed frames holds of them. Or refuses by the first question that
// fails, and writes nothing.
#[tactic(auto, using(mstp_decode::proofs::Sizes::encoded_size), unfolding(crate::specs::Encode::encode_answer, crate::specs::Encode::encode_output, crate::specs::Encode::encode_question, crate::specs::Encode::encode_questions, octets::specs::Output::write_answer, octets::specs::Output::write_output, octets::specs::Question::first_no, octets::specs::Question::answered))]
pub fn encode(
    rule: CheckRule,
    frame_type: MstpFrameType,
    destination: u8,
    source: u8,
    body: &[u8],
    out: &mut [u8],
) -> Result<usize, Refusal>
    ensures value { result ≡ encode_answer rule frame_type destination source body.now out.old }
    ensures output { out.new ≡ encode_output rule frame_type destination source body.now out.old }
    ensures back { ReadsBack rule frame_type destination source body.now out.new result }
    ensures written { InFront (WrittenFrame rule) result out.new }
{
    if MSTP_MAX_DATA_LENGTH < body.len() {
        return Err(Refusal::MstpDataTooLong);
    }
    // Kept: `as`, as in the Rust, and no `try_from`: a number of at most 501 fits.
    let data_length = body.len() as u16;
    if out.len() < mstp_frame::frame_size(data_length) {
        return Err(Refusal::MstpOutputTooShort);
    }
    let at = output::put_header(rule, frame_type, destination, source, data_length, out);
    Ok(output::put_data(rule, body, out, at))
}
