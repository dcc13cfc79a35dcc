// The whole reading of a run: the finder's calls from place 0, each next from the last report's end, until "none".
#![tactic(auto)]

ghost use Rattle.std.specs.Prelude.{◌≡◌, ◌≤◌, length};
ghost use Rattle.run_finder.specs.Reading.{WholeReading, reading};
ghost use Rattle.run_reading.specs.Answer.{count_answer, read_answer, read_output, CountOf, Counted, Handed};
ghost use Rattle.run_finder.specs.Demand.{Demand3};

use crc::CheckRule;
use mstp_frame::MSTP_HEADER_SIZE;
use octets::Refusal;

// How many frames a run has: none of them stored.
fn count_reports(rule: CheckRule, run: &[u8]) -> usize
    requires { length run.now ≤ 65535 }
    ensures { result ≡ length (reading rule run.now) }
{
    let mut none: [u32; 0] = [];
    run_search::store_reports(rule, run, &mut none)
}

// How many frames a whole reading of a run finds, or the question that fails. Demand 3: of a run that begins with damage
// and is filled to its end by written frames, the reports that start 510 or more octets after the damage are exactly the
// frames that start there, and every report passes every check.
pub fn count_frames(rule: CheckRule, run: &[u8]) -> Result<usize, Refusal>
    ensures value { result ≡ count_answer rule run.now }
    ensures calls { CountOf (WholeReading rule run.now) result }
    ensures covered { Counted rule run.now result }
    ensures demand { Demand3 rule run.now (reading rule run.now) }
{
    if !octets::at_most_65535(run.len()) {
        return Err(Refusal::TooManyOctets);
    }
    Ok(count_reports(rule, run))
}

// Writes two numbers, place and octet count, for each frame of a whole reading at the front of `out`, whose rest stays,
// and answers how many frames there are. Or answers the question that fails, and writes nothing.
pub fn read_frames(rule: CheckRule, run: &[u8], out: &mut [u32]) -> Result<usize, Refusal>
    ensures value { result ≡ read_answer rule run.now out.old }
    ensures output { out.new ≡ read_output rule run.now out.old }
    ensures calls { Handed (WholeReading rule run.now) result out.new }
    ensures demand { Handed (Demand3 rule run.now) result out.new }
{
    if !octets::at_most_65535(run.len()) {
        return Err(Refusal::TooManyOctets);
    }
    // a frame has a header: a list with room for one in every 8 octets needs no counting
    if out.len() / 2 < run.len() / MSTP_HEADER_SIZE && out.len() / 2 < count_reports(rule, run) {
        return Err(Refusal::ListTooShort);
    }
    Ok(run_search::store_reports(rule, run, out))
}
