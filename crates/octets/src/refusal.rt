// The refusals: for each question of docs/QUESTIONS.md what is wrong where its answer is no. The number of a refusal is that
// of its question.
ghost use Rattle.std.specs.Prelude.{◌≡◌};
ghost use Rattle.octets.specs.Refusal.{refusal_number};

// What a call answers that refuses: the first question that failed.
#[derive(Clone, Copy)]
pub enum Refusal {
    // MS/TP frames.
    MstpTooShort = 1,
    MstpPreamble = 2,
    MstpFrameType = 3,
    MstpHeaderCheck = 4,
    MstpSize = 5,
    MstpDataCheck = 6,
    MstpDataTooLong = 7,
    MstpOutputTooShort = 8,

    // BVLC messages.
    BvlcTooShort = 11,
    BvlcType = 12,
    BvlcFunction = 13,
    BvlcLength = 14,
    BvlcNoNpdu = 15,
    BvlcOutputTooShort = 16,

    // Ethernet frames.
    EthernetTooShort = 21,
    EthernetType = 22,
    EthernetLlc = 23,
    EthernetTooLong = 24,
    EthernetOutputTooShort = 25,

    // Statistics, patterns, finder, whole reading.
    TooManyOctets = 31,
    ListTooShort = 32,
    PlaceBeyondEnd = 33,

    // The log.
    TrailerTorn = 41,
    RecordKind = 42,
    RecordSize = 43,
    RecordTorn = 44,
    BufferTooShort = 46,
    EndBeyondLog = 47,

    // Ethernet frames with a length field.
    LengthField = 61,
    LengthBeyondEnd = 62,
}

impl From<Refusal> for u8 {
    ghost from_gives = { λ r n. n ≡ refusal_number r };

    fn from(refusal: Refusal) -> u8 {
        refusal as u8
    }
}
