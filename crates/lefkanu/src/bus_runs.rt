// Runs of bus octets: finder and whole reading.
ghost use Rattle.std.specs.Prelude.{◌≡◌};
ghost use Rattle.run_finder.specs.Find.{find};
ghost use Rattle.run_reading.specs.Answer.{count_answer, read_answer, read_output};
ghost use Rattle.numbers.specs.Named.{under_rule};
ghost use Rattle.run_search.specs.Search.{report_numbers};
ghost use Rattle.octets.specs.Answer.{answer_number};
ghost use Rattle.answers.specs.Told.{no_case, count_or, found_number, made_of_found};

use answers::NO_CASE;

// The first acceptable frame of a run that starts at a place or later: its place and octet count, into `report`.
#[unsafe(no_mangle)]
pub extern "C" fn lefkanu_find_frame(
    rule: u8,
    run: &[u8],
    place: usize,
    report: &mut [usize; 2],
) -> u8
    ensures value { result ≡ under_rule rule (λ rule. found_number (find rule run.now place)) no_case }
    ensures report { report.new
        ≡ under_rule rule (λ rule. made_of_found report_numbers report.old (find rule run.now place)) report.old }
{
    let Some(rule) = numbers::rule_named(rule) else {
        return NO_CASE;
    };
    answers::tell_found(run_finder::find_frame(rule, run, place), report)
}

// How many frames a whole reading of a run finds, into `count`.
#[unsafe(no_mangle)]
pub extern "C" fn lefkanu_count_frames(rule: u8, run: &[u8], count: &mut usize) -> u8
    ensures value { result ≡ under_rule rule (λ rule. answer_number (count_answer rule run.now)) no_case }
    ensures count { count.new
        ≡ under_rule rule (λ rule. count_or count.old (count_answer rule run.now)) count.old }
{
    let Some(rule) = numbers::rule_named(rule) else {
        return NO_CASE;
    };
    answers::tell_count(run_reading::count_frames(rule, run), count)
}

// The whole reading of a run: place and octet count of each frame at the front of `out`, whose rest stays, and the count
// of the frames into `count`.
#[unsafe(no_mangle)]
pub extern "C" fn lefkanu_read_frames(
    rule: u8,
    run: &[u8],
    out: &mut [u32],
    count: &mut usize,
) -> u8
    ensures value { result ≡ under_rule rule (λ rule. answer_number (read_answer rule run.now out.old)) no_case }
    ensures output { out.new
        ≡ under_rule rule (λ rule. read_output rule run.now out.old) out.old }
    ensures count { count.new
        ≡ under_rule rule (λ rule. count_or count.old (read_answer rule run.now out.old))
        count.old }
{
    let Some(rule) = numbers::rule_named(rule) else {
        return NO_CASE;
    };
    answers::tell_count(run_reading::read_frames(rule, run, out), count)
}
