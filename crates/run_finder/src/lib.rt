// The finder: the first acceptable MS/TP frame of a run from a place on, under either check rule.
#![tactic(auto)]

ghost use Rattle.std.specs.Prelude.{◌≡◌, IfOk};
ghost use Rattle.run_finder.specs.Find.{find};
ghost use Rattle.run_search.specs.Found.{Found};
ghost use Rattle.run_finder.specs.Calls.{Calls};
ghost use Rattle.run_finder.specs.Example.{Example};

use crc::CheckRule;
use octets::Refusal;
use run_search::Report;

// The first acceptable frame that starts at a place or later. A report is acceptable, and no acceptable frame starts
// between the place and it; "none" means that none starts at the place or later. Whoever calls from place 0 and goes on at
// each report's end until "none" has read the run whole, and demand 3: of a run that begins with damage and is filled to
// its end by written frames, the reports that start 510 or more octets after the damage are exactly the frames that start
// there, and every report passes every check.
pub fn find_frame(rule: CheckRule, run: &[u8], place: usize) -> Result<Option<Report>, Refusal>
    ensures value { result ≡ find rule run.now place }
    ensures plain { IfOk result (Found rule run.now place) }
    ensures calls { Calls rule run.now place result }
    ensures example { Example }
{
    if !octets::at_most_65535(run.len()) {
        return Err(Refusal::TooManyOctets);
    }
    if run.len() < place {
        return Err(Refusal::PlaceBeyondEnd);
    }
    let p = run_search::next_frame(rule, run, place);
    if p < run.len() {
        return Ok(Some(Report {
            place: p,
            count: run_search::size_at(run, p),
        }));
    }
    Ok(None)
}
