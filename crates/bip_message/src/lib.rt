// What a BVLC message carries: bip.rs.
#![tactic(auto)]

ghost use Rattle.std.specs.Prelude.{◌≡◌};
ghost use Rattle.bip_header.specs.Function.{function_number};
ghost use Rattle.bip_message.specs.Message.{npdu_asked, message_of, process, npdu, LeastLaidOut, Whole, Carries};

use bip_header::BvlcFunction;
use octets::Refusal;

// The octet at which an NPDU starts: behind the header, or behind the address of the device that sent it first.
const NPDU_START: usize = 4;

const FORWARDED_NPDU_START: usize = 10;

// What a message carries: an NPDU, from an octet on to its end; a time to live; or nothing that is handed on.
#[derive(Clone, Copy)]
pub enum BvlcMessage {
    Npdu(usize),
    TimeToLive(u16),
    NoNpdu,
}

// An NPDU that starts at an octet of a message, or question 15: none does if the message ends before that octet.
#[tactic(auto, unfolding(octets::specs::Question::first_no, octets::specs::Question::answered))]
fn npdu_from(start: usize, message: &[u8]) -> Result<BvlcMessage, Refusal>
    ensures { result ≡ npdu_asked (BvlcMessage.Npdu start) message.now }
{
    if message.len() <= start {
        return Err(Refusal::BvlcNoNpdu);
    }
    Ok(BvlcMessage::Npdu(start))
}

// What a message carries by its function, or question 15. A registration of exactly 6 octets carries a time to live.
#[tactic(auto, unfolding(octets::specs::Question::first_no, octets::specs::Question::answered, octets::specs::Range::within, crate::specs::Message::registration))]
fn message_of(function: BvlcFunction, message: &[u8]) -> Result<BvlcMessage, Refusal>
    ensures { result ≡ npdu_asked (message_of (function_number function) message.now) message.now }
{
    match function {
        BvlcFunction::OriginalUnicastNpdu | BvlcFunction::OriginalBroadcastNpdu => {
            npdu_from(NPDU_START, message)
        }
        BvlcFunction::ForwardedNpdu => npdu_from(FORWARDED_NPDU_START, message),
        BvlcFunction::RegisterForeignDevice => match message {
            [_, _, _, _, high, low] => {
                Ok(BvlcMessage::TimeToLive(u16::from_be_bytes([*high, *low])))
            }
            _ => Ok(BvlcMessage::NoNpdu),
        },
        _ => Ok(BvlcMessage::NoNpdu),
    }
}

// What a message carries, or the first of questions 11 to 15 that fails.
pub fn process_bvlc_message(message: &[u8]) -> Result<BvlcMessage, Refusal>
    ensures { result ≡ process message.now }
{
    let header = bip_header::decode(message)?;
    if usize::from(header.length) != message.len() {
        return Err(Refusal::BvlcLength);
    }
    message_of(header.function, message)
}

// The NPDU of a message, as a part of its octets: exactly what stands behind the header, and behind the address where
// there is one. Empty where `process_bvlc_message` answers anything but an NPDU.
pub fn npdu(message: &[u8]) -> &[u8]
    ensures result_value { result.now ≡ npdu message.now }
    ensures whole { Whole message.now result.now }
    ensures carries { Carries message.now (process message.now) result.now }
    ensures least { LeastLaidOut }
{
    let Ok(carried) = process_bvlc_message(message) else {
        return &message[..0];
    };
    match carried {
        BvlcMessage::Npdu(start) => &message[start..],
        _ => &message[..0],
    }
}
