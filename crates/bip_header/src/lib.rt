// The functions and the header of BVLC messages: bip.rs.
#![tactic(auto)]

mod function;

ghost use Rattle.std.specs.Prelude.{◌≡◌};
ghost use Rattle.bip_header.specs.Header.{decode, encode_answer, encode_output};
ghost use Rattle.bip_header.specs.RoundTrip.{ReadsBack, WritesBack};

pub use function::BvlcFunction;
use octets::Refusal;

// The type of every BACnet/IP message.
pub const BVLC_TYPE: u8 = 0x81;

// Octets of a header.
pub const BVLC_HEADER_SIZE: usize = 4;

// A header: the type, the function, and how many octets the message says it has, these four among them.
#[derive(Clone, Copy)]
pub struct BvlcHeader {
    pub bvlc_type: u8,
    pub function: BvlcFunction,
    pub length: u16,
}

// Reads the header in front of a message: written anew, it is the message's first four octets. Or refuses by the first of
// questions 11 to 13 that fails. The length is not compared with anything.
pub fn decode(message: &[u8]) -> Result<BvlcHeader, Refusal>
    ensures value { result ≡ decode message.now }
    ensures back { WritesBack message.now result }
{
    let [bvlc_type, function, high, low, ..] = message else {
        return Err(Refusal::BvlcTooShort);
    };
    if *bvlc_type != BVLC_TYPE {
        return Err(Refusal::BvlcType);
    }
    Ok(BvlcHeader {
        bvlc_type: BVLC_TYPE,
        function: BvlcFunction::try_from(*function)?,
        length: u16::from_be_bytes([*high, *low]),
    })
}

// Writes a header at the front of `out`, whose rest stays, and answers its octet count: `decode` accepts those octets,
// whatever stands behind them, and gives back what was written. Or refuses by the question that fails, and writes nothing.
pub fn encode(function: BvlcFunction, length: u16, out: &mut [u8]) -> Result<usize, Refusal>
    ensures value { result ≡ encode_answer function length out.old }
    ensures output { out.new ≡ encode_output function length out.old }
    ensures back { ReadsBack function length out.new result }
{
    if out.len() < BVLC_HEADER_SIZE {
        return Err(Refusal::BvlcOutputTooShort);
    }
    let [high, low] = length.to_be_bytes();
    let header = [BVLC_TYPE, u8::from(function), high, low];
    out[..BVLC_HEADER_SIZE].copy_from_slice(&header);
    Ok(BVLC_HEADER_SIZE)
}
