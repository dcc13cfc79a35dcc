// The records of a log.
ghost use Rattle.std.specs.Prelude.{◌≡◌};
ghost use Rattle.log_record.specs.Read.{read_record, payload_of};
ghost use Rattle.log_append.specs.Append.{append_answer, append_output};
ghost use Rattle.answers.specs.Parts.{part_named};
ghost use Rattle.numbers.specs.Named.{at_time};
ghost use Rattle.numbers.specs.Layout.{record_numbers};
ghost use Rattle.octets.specs.Answer.{answer_number};
ghost use Rattle.answers.specs.Told.{no_case, count_or, found_number, made_of_found};

use answers::NO_CASE;

// The record that ends at an end of the log, into `found`; the part of the log that its second and third numbers name is its
// octets.
#[unsafe(no_mangle)]
pub extern "C" fn lefkanu_read_record(log: &[u8], end: usize, found: &mut [usize; 5]) -> u8
    ensures value { result ≡ found_number (read_record log.now end) }
    ensures found { found.new ≡ made_of_found record_numbers found.old (read_record log.now end) }
    ensures part { result ≡ 0
        → part_named 1 found.new log.now ≡ payload_of log.now (read_record log.now end) }
{
    answers::tell_found(log_record::read_record(log, end), found)
}

// Appends a record behind the first `used` octets of a buffer, touches nothing else, and puts the new used count into
// `new_used`. The time is that of a number, `timed`, and a second.
#[unsafe(no_mangle)]
pub extern "C" fn lefkanu_append(
    buffer: &mut [u8],
    used: usize,
    kind: u8,
    timed: u8,
    second: u32,
    payload: &[u8],
    new_used: &mut usize,
) -> u8
    ensures value { result ≡ at_time timed second
        (λ time. answer_number (append_answer buffer.old used kind time payload.now)) no_case }
    ensures output { buffer.new ≡ at_time timed second
        (λ time. append_output buffer.old used kind time payload.now) buffer.old }
    ensures used { new_used.new ≡ at_time timed second
        (λ time. count_or new_used.old (append_answer buffer.old used kind time payload.now))
        new_used.old }
{
    let Some(time) = numbers::time_named(timed, second) else {
        return NO_CASE;
    };
    let answer = log_append::append(buffer, used, kind, time, payload);
    answers::tell_count(answer, new_used)
}
