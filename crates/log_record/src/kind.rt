// The kinds of records and their numbers.
use octets::Refusal;

// What a record holds: an MS/TP frame, a BACnet/IP message or an Ethernet frame.
#[derive(Clone, Copy)]
pub enum RecordKind {
    Bus = 1,
    Ip = 2,
    Ethernet = 3,
}

// The kind that a number names, or question 42.
impl TryFrom<u8> for RecordKind {
    ghost use Rattle.std.specs.Prelude.{◌≡◌};
    ghost use Rattle.log_record.specs.Kind.{kind_answer};

    type Error = Refusal;

    ghost try_from_gives = { λ n answer. answer ≡ kind_answer n };

    #[tactic(auto, unfolding(crate::specs::Kind::kind_answer, octets::specs::Question::first_no, octets::specs::Question::answered, octets::specs::Range::within))]
    fn try_from(number: u8) -> Result<Self, Refusal> {
        match number {
            1 => Ok(RecordKind::Bus),
            2 => Ok(RecordKind::Ip),
            3 => Ok(RecordKind::Ethernet),
            _ => Err(Refusal::RecordKind),
        }
    }
}

// The number of a kind.
impl From<RecordKind> for u8 {
    ghost use Rattle.std.specs.Prelude.{◌≡◌};
    ghost use Rattle.log_record.specs.Kind.{kind_number};

    ghost from_gives = { λ kind n. n ≡ kind_number kind };

    fn from(kind: RecordKind) -> u8 {
        kind as u8
    }
}
