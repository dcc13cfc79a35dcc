// The reports of a run under one rule, as an iterator.
use crc::CheckRule;
use run_search::Report;

// A run and a rule, and the place to go on from.
#[derive(Clone, Copy)]
pub struct FrameReports<'a> {
    pub rule: CheckRule,
    pub run: &'a [u8],
    pub place: usize,
}

impl<'a> FrameReports<'a> {
    ghost use Rattle.std.specs.Prelude.{◌≡◌};
    ghost use Rattle.run_search.specs.Reports.{reports};
    ghost use Rattle.run_reader.specs.Left.{reports_left};

    // The reports of a whole run: a reader at its start.
    #[tactic(auto, unfolding(run_search::specs::Reports::reports))]
    pub fn new(rule: CheckRule, run: &'a [u8]) -> FrameReports<'a>
        ensures reader { (result.rule ≡ rule) × (result.run ≡ run.entry) × (result.place ≡ 0) }
        ensures left { reports_left result ≡ reports rule run.now }
    {
        FrameReports {
            rule,
            run,
            place: 0,
        }
    }
}

// Each call gives the first of the reports that are left, and leaves the others; of a run of more than 65,535 octets there
// are none. The place moves behind a report, and stays where none is left.
impl<'a> Iterator for FrameReports<'a> {
    type Item = Report;

    ghost use Rattle.std.specs.Iterator.{item_count};
    ghost use Rattle.run_reader.specs.Left.{reports_left, GivesFirst};

    ghost next_gives = { GivesFirst };

    ghost remaining = { item_count reports_left };

    #[tactic(auto, using(crate::proofs::Left::left_some, crate::proofs::Left::left_none, crate::proofs::Left::left_refused))]
    fn next(&mut self) -> Option<Report> {
        let Ok(Some(report)) = run_finder::find_frame(self.rule, self.run, self.place) else {
            return None;
        };
        self.place = report.place + report.count;
        Some(report)
    }
}
