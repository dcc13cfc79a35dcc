// Answers told to callers in other languages: a number, which is 0 where there is a result, and lent memory, which then
// holds the result, and else what it held before.
#![tactic(auto)]

mod told;

ghost use Rattle.std.specs.Prelude.{◌≡◌};
ghost use Rattle.octets.specs.Answer.{answer_number, made_of};
ghost use Rattle.answers.specs.Told.{count_or, found_number, made_of_found, carried_numbers};
ghost use Rattle.answers.specs.Told.{decoded_destination, decoded_source, decoded_payload};
ghost use Rattle.answers.specs.Told.{statistics_distribution, statistics_counts};
ghost use Rattle.answers.specs.Told.{analysis_count, analysis_result, analysis_distribution, analysis_counts};

use analysis::FrameAnalysis;
use bip_message::BvlcMessage;
use ethernet_decode::{BACNET_ETHERNET_HEADER_SIZE, EthernetHeader};
use octets::Refusal;
use statistics::FrameStatistics;
pub use told::Told;

// "None", and "start reached".
pub const NONE: u8 = 0xFE;

// A number that names no rule, type, function, form or state.
pub const NO_CASE: u8 = 0xFF;

// The number of an answer: 0 where there is a value, else that of the question that failed.
pub fn answer_number<T>(answer: &Result<T, Refusal>) -> u8
    ensures { result ≡ answer_number answer.now }
{
    match answer {
        Ok(_) => 0,
        Err(refusal) => u8::from(*refusal),
    }
}

// A value, told as its numbers.
pub fn tell<T: Told>(answer: Result<T, Refusal>, out: &mut T::Numbers) -> u8
    ensures value { result ≡ answer_number answer }
    ensures out { out.new ≡ made_of T.numbers_of out.old answer }
{
    match answer {
        Ok(value) => {
            *out = value.numbers();
            0
        }
        Err(refusal) => u8::from(refusal),
    }
}

// A count: of the octets written, of entries, of reports, of the octets used.
pub fn tell_count(answer: Result<usize, Refusal>, count: &mut usize) -> u8
    ensures value { result ≡ answer_number answer }
    ensures count { count.new ≡ count_or count.old answer }
{
    tell(answer, count)
}

// A value that was found, told as its numbers, or that there is none.
pub fn tell_found<T: Told>(answer: Result<Option<T>, Refusal>, out: &mut T::Numbers) -> u8
    ensures value { result ≡ found_number answer }
    ensures out { out.new ≡ made_of_found T.numbers_of out.old answer }
{
    match answer.transpose() {
        Some(found) => tell(found, out),
        None => NONE,
    }
}

// The numbers of what a BVLC message of a size carries.
fn carried_numbers(message: BvlcMessage, size: usize) -> [usize; 3]
    ensures { result ≡ carried_numbers size message }
{
    match message {
        BvlcMessage::Npdu(start) => [1, start, size.saturating_sub(start)],
        BvlcMessage::TimeToLive(seconds) => [2, usize::from(seconds), 0],
        BvlcMessage::NoNpdu => [3, 0, 0],
    }
}

// What a BVLC message of a size carries. Not by `Told`: the numbers of an NPDU say its octet count, which the size gives.
pub fn tell_message(
    answer: Result<BvlcMessage, Refusal>,
    size: usize,
    carried: &mut [usize; 3],
) -> u8
    ensures value { result ≡ answer_number answer }
    ensures carried { carried.new ≡ made_of (carried_numbers size) carried.old answer }
{
    if let Ok(message) = answer {
        *carried = carried_numbers(message, size);
    }
    answer_number(&answer)
}

// What reading an Ethernet frame answers. Not by `Told`, as statistics and analysis below: C lends several places.
pub fn tell_ethernet(
    answer: Result<EthernetHeader, Refusal>,
    dest_mac: &mut [u8; 6],
    src_mac: &mut [u8; 6],
    payload: &mut [usize; 2],
) -> u8
    ensures value { result ≡ answer_number answer }
    ensures destination { dest_mac.new ≡ decoded_destination dest_mac.old answer }
    ensures source { src_mac.new ≡ decoded_source src_mac.old answer }
    ensures payload { payload.new ≡ decoded_payload payload.old answer }
{
    if let Ok(header) = answer {
        let destination = header.dest_mac;
        let source = header.src_mac;
        *dest_mac = destination;
        *src_mac = source;
        *payload = [BACNET_ETHERNET_HEADER_SIZE, header.payload_length];
    }
    answer_number(&answer)
}

// What the statistics answer.
pub fn tell_statistics(
    answer: Result<FrameStatistics, Refusal>,
    distribution: &mut [u32; 256],
    counts: &mut [usize; 5],
) -> u8
    ensures value { result ≡ answer_number answer }
    ensures distribution { distribution.new ≡ statistics_distribution distribution.old answer }
    ensures counts { counts.new ≡ statistics_counts counts.old answer }
{
    if let Ok(statistics) = answer {
        let occurrences = statistics.byte_distribution;
        *distribution = occurrences;
        *counts = numbers::count_numbers(statistics);
    }
    answer_number(&answer)
}

// What the analysis answers.
pub fn tell_analysis(
    answer: Result<FrameAnalysis, Refusal>,
    validation: &mut [usize; 32],
    distribution: &mut [u32; 256],
    counts: &mut [usize; 5],
    count: &mut usize,
) -> u8
    ensures value { result ≡ answer_number answer }
    ensures validation { validation.new ≡ analysis_result validation.old answer }
    ensures distribution { distribution.new ≡ analysis_distribution distribution.old answer }
    ensures counts { counts.new ≡ analysis_counts counts.old answer }
    ensures count { count.new ≡ analysis_count count.old answer }
{
    match answer {
        Ok(analysis) => {
            let occurrences = analysis.statistics.byte_distribution;
            *distribution = occurrences;
            *counts = numbers::count_numbers(analysis.statistics);
            *count = analysis.patterns;
            *validation = result_numbers::result_numbers(analysis.validation);
            0
        }
        Err(refusal) => u8::from(refusal),
    }
}
