// A reader that borrows a run and remembers its place: each `next` answers what the finder says from there. The work is
// `step_at`, for callers who keep the place themselves; the functions over the struct are thin.
#![tactic(auto)]

mod reports;

ghost use Rattle.std.specs.Prelude.{◌≡◌, []};
ghost use Rattle.run_finder.specs.Find.{find};
ghost use Rattle.run_finder.specs.Calls.{Called, Calls};
ghost use Rattle.crc.specs.declared.CheckRule.{CheckRule};
ghost use Rattle.run_reader.specs.Step.{step_of, moved_on, Stays, Reads};

use crc::CheckRule;
use octets::Refusal;
pub use reports::FrameReports;
use run_search::Report;

// An answer of the finder, and the place to go on from.
#[derive(Clone, Copy)]
pub struct Step {
    pub found: Result<Option<Report>, Refusal>,
    pub next: usize,
}

// The finder's answer from a place of a run, and the place to go on from.
#[tactic(auto, unfolding(crate::specs::Step::step_of))]
pub fn step_at(rule: CheckRule, run: &[u8], place: usize) -> Step
    ensures { (result ≡ step_of rule run.now place) × Calls rule run.now place result.found }
{
    let found = run_finder::find_frame(rule, run, place);
    let next = match found {
        Ok(Some(report)) => report.place + report.count,
        Ok(None) | Err(_) => place,
    };
    Step { found, next }
}

// A run, and the place to go on from.
#[derive(Clone, Copy)]
pub struct FrameReader<'a> {
    pub run: &'a [u8],
    pub place: usize,
}

impl<'a> FrameReader<'a> {
    // A reader at the start of a run.
    #[tactic(auto, using(run_finder::specs::Calls::none))]
    pub fn new(run: &'a [u8]) -> FrameReader<'a>
        ensures { (result.run ≡ run.entry) × (result.place ≡ 0) × ((rule : CheckRule) → Called rule result.run.now [] result.place) }
    {
        FrameReader { run, place: 0 }
    }

    // The finder's answer from the reader's place. The place moves behind a frame, and stays on "none" and on a refusal.
    // Whoever calls it from `new` on until "none" has read the run whole, and demand 3 holds of the reports.
    #[tactic(auto, unfolding(crate::specs::Step::step_of, crate::specs::Step::moved_on))]
    pub fn next(&mut self, rule: CheckRule) -> Result<Option<Report>, Refusal>
        ensures value { (result ≡ find rule self.old.run.now self.old.place)
            × (self.new ≡ moved_on rule self.old) }
        ensures stays { Stays result self.old self.new }
        ensures reads { Reads rule result self.old self.new }
    {
        let s = step_at(rule, self.run, self.place);
        self.place = s.next;
        s.found
    }
}
