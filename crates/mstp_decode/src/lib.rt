// Reading MS/TP frames under either check rule: `MstpFrame::decode` of mstp.rs.
#![tactic(auto)]

mod fields;

ghost use Rattle.std.specs.Prelude.{◌≡◌};
ghost use Rattle.octets.specs.Refusal.{result_of};
ghost use Rattle.mstp_decode.specs.Decode.{data_question, checks_question, decode_question, decode, frame_data};
ghost use Rattle.mstp_decode.specs.Change.{FindsChanges};
ghost use Rattle.mstp_decode.specs.Example.{Example};
ghost use Rattle.mstp_decode.specs.Limits.{Limits};
ghost use Rattle.mstp_decode.specs.RoundTrip.{WritesBack, DataOf};

use crc::CheckRule;
use mstp_frame::{MSTP_HEADER_SIZE, MstpFrameType};
use octets::Refusal;

// What `MstpFrame` holds, but for the data, which are a part of the caller's octets.
#[derive(Clone, Copy)]
pub struct MstpHeader {
    pub frame_type: MstpFrameType,
    pub destination: u8,
    pub source: u8,
    pub data_length: u16,
    pub header_crc: u8,
    // Present only if there are data.
    pub data_crc: Option<u16>,
}

// Kept: a rule and a frame stay two parameters, as callers pass them.

// Questions 5 and 6, the size and the data check: refuses by the first that `frame` fails.
#[tactic(auto, unfolding(crate::specs::Decode::data_question, octets::specs::Question::first_no, octets::specs::Question::answered))]
pub fn data_question(rule: CheckRule, frame: &[u8]) -> Result<(), Refusal>
    ensures { result ≡ result_of (data_question rule frame.now) tt }
{
    if frame.len() != mstp_frame::frame_size(mstp_frame::data_length(frame)) {
        return Err(Refusal::MstpSize);
    }
    if !fields::data_check_right(rule, frame) {
        return Err(Refusal::MstpDataCheck);
    }
    Ok(())
}

// Questions 4 to 6, the header check, the size and the data check: refuses by the first that `frame` fails.
#[tactic(auto, unfolding(crate::specs::Decode::checks_question, crate::specs::Decode::data_question, octets::specs::Question::first_no, octets::specs::Question::answered))]
pub fn checks_question(rule: CheckRule, frame: &[u8]) -> Result<(), Refusal>
    ensures { result ≡ result_of (checks_question rule frame.now) tt }
{
    if !fields::header_check_right(rule, frame) {
        return Err(Refusal::MstpHeaderCheck);
    }
    data_question(rule, frame)
}

// Questions 1 to 6: refuses by the first that `frame` fails.
#[tactic(auto, unfolding(crate::specs::Decode::decode_question, mstp_frame::specs::FrameType::from_u8, crate::specs::Decode::decode_questions, crate::specs::Decode::checks_question, octets::specs::Question::first_no, octets::specs::Question::answered))]
fn decode_question(rule: CheckRule, frame: &[u8]) -> Result<(), Refusal>
    ensures { result ≡ result_of (decode_question rule frame.now) tt }
{
    if frame.len() < MSTP_HEADER_SIZE {
        return Err(Refusal::MstpTooShort);
    }
    if !mstp_frame::begins_preamble(frame) {
        return Err(Refusal::MstpPreamble);
    }
    if MstpFrameType::from_u8(mstp_frame::frame_type(frame)).is_none() {
        return Err(Refusal::MstpFrameType);
    }
    checks_question(rule, frame)
}

// Reads a frame: its header, which written anew with the frame's data is the frame, or the first question that fails. A
// written frame with one octet changed is read only under the house rule, and only where an address was XORed with AB. One
// with a change confined to 16 neighbouring bits of the data and their check, or to 8 of the header and its check (house
// rule: 7), is not read.
pub fn decode(rule: CheckRule, frame: &[u8]) -> Result<MstpHeader, Refusal>
    ensures value { result ≡ decode rule frame.now }
    ensures back { WritesBack rule frame.now result }
    ensures changes { FindsChanges rule frame.now result }
    ensures example { Example }
    ensures limits { Limits }
{
    decode_question(rule, frame)?;
    Ok(fields::header_of(frame))
}

// The data of a frame, as a part of its octets: exactly what it was written with. Empty where `decode` refuses.
pub fn frame_data(rule: CheckRule, frame: &[u8]) -> &[u8]
    ensures result_value { result.now ≡ frame_data rule frame.now }
    ensures whole { DataOf rule frame.now result.now }
{
    match decode_question(rule, frame) {
        Ok(()) => mstp_frame::data_part(frame),
        Err(_) => &frame[..0],
    }
}
