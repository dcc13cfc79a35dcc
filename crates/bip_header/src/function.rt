// The functions of BVLC messages and their numbers.
use octets::Refusal;

// Functions, in the order of bip.rs, which is not that of their numbers.
#[derive(Clone, Copy)]
pub enum BvlcFunction {
    Result = 0x00,
    WriteBroadcastDistributionTable = 0x01,
    OriginalUnicastNpdu = 0x0A,
    OriginalBroadcastNpdu = 0x0B,
    ForwardedNpdu = 0x04,
    RegisterForeignDevice = 0x05,
    ReadBroadcastDistributionTable = 0x02,
    ReadBroadcastDistributionTableAck = 0x03,
    ReadForeignDeviceTable = 0x06,
    ReadForeignDeviceTableAck = 0x07,
    DeleteForeignDeviceTableEntry = 0x08,
    DistributeBroadcastToNetwork = 0x09,
    SecureBvll = 0x0C,
}

// The function that a number names, if it names one: the number of it is that one.
impl TryFrom<u8> for BvlcFunction {
    ghost use Rattle.std.specs.Prelude.{◌≡◌};
    ghost use Rattle.bip_header.specs.Function.{try_from, NumberBack};

    type Error = Refusal;

    ghost try_from_gives = { λ n answer. (answer ≡ try_from n) × NumberBack n answer };

    fn try_from(value: u8) -> Result<Self, Refusal> {
        match value {
            0x00 => Ok(BvlcFunction::Result),
            0x01 => Ok(BvlcFunction::WriteBroadcastDistributionTable),
            0x02 => Ok(BvlcFunction::ReadBroadcastDistributionTable),
            0x03 => Ok(BvlcFunction::ReadBroadcastDistributionTableAck),
            0x04 => Ok(BvlcFunction::ForwardedNpdu),
            0x05 => Ok(BvlcFunction::RegisterForeignDevice),
            0x06 => Ok(BvlcFunction::ReadForeignDeviceTable),
            0x07 => Ok(BvlcFunction::ReadForeignDeviceTableAck),
            0x08 => Ok(BvlcFunction::DeleteForeignDeviceTableEntry),
            0x09 => Ok(BvlcFunction::DistributeBroadcastToNetwork),
            0x0A => Ok(BvlcFunction::OriginalUnicastNpdu),
            0x0B => Ok(BvlcFunction::OriginalBroadcastNpdu),
            0x0C => Ok(BvlcFunction::SecureBvll),
            _ => Err(Refusal::BvlcFunction),
        }
    }
}

// The number of a function: it names the function.
impl From<BvlcFunction> for u8 {
    ghost use Rattle.std.specs.Prelude.{◌≡◌, Ok};
    ghost use Rattle.bip_header.specs.Function.{function_number, try_from};

    ghost from_gives = { λ f n. (n ≡ function_number f) × (try_from n ≡ Ok f) };

    fn from(function: BvlcFunction) -> u8 {
        function as u8
    }
}
