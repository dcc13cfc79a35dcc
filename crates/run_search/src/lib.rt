// The search for acceptable MS/TP frames in a run, under either check rule.
#![tactic(auto)]

mod through;

ghost use Rattle.std.specs.Prelude.{◌≡◌, ◌/◌, length, take};
ghost use Rattle.octets.specs.Output.{at_front};
ghost use Rattle.run_search.specs.Acceptable.{acceptable};
ghost use Rattle.run_search.specs.Reports.{reports, list_numbers};
ghost use Rattle.run_search.specs.Search.{size_at, next_frame};

use crc::CheckRule;
use mstp_frame::MSTP_HEADER_SIZE;
use through::FrameSearch;

// A frame found in a run: its place and its octet count.
#[derive(Clone, Copy)]
pub struct Report {
    pub place: usize,
    pub count: usize,
}

// Whether some octets are an acceptable frame: the MS/TP validator has no error for them, and their type is 0 to 7.
pub fn acceptable(rule: CheckRule, frame: &[u8]) -> bool
    ensures { result ≡ acceptable rule frame.now }
{
    FrameSearch::new(rule).acceptable(frame)
}

// The octet count that the header at a place says; 8, a header's, where fewer octets are left.
#[tactic(auto, unfolding(crate::specs::Search::size_at))]
pub fn size_at(run: &[u8], p: usize) -> usize
    ensures { result ≡ size_at run.now p }
{
    if run.len() < p || run.len() - p < MSTP_HEADER_SIZE {
        return MSTP_HEADER_SIZE;
    }
    mstp_frame::frame_size(mstp_frame::data_length(&run[p..]))
}

// The place of the first acceptable frame from a place on, or the run's length.
// Kept a number: src/through.rt says why.
pub fn next_frame(rule: CheckRule, run: &[u8], from: usize) -> usize
    ensures { result ≡ next_frame rule run.now from }
{
    FrameSearch::new(rule).next_frame(run, from)
}

// Stores place and octet count of each frame of a run at the front of a list, as many as it has room for, and answers how
// many frames there are: each next one from the last one's end on. A run of more than 65,535 octets is not looked at.
#[tactic(auto, unfolding(crate::specs::Reports::reports), using(crate::proofs::Whole::none_stored))]
pub fn store_reports(rule: CheckRule, run: &[u8], out: &mut [u32]) -> usize
    ensures value { result ≡ length (reports rule run.now) }
    ensures output { out.new
        ≡ at_front (list_numbers (take (length out.old / 2) (reports rule run.now))) out.old }
{
    if !octets::at_most_65535(run.len()) {
        return 0;
    }
    FrameSearch::new(rule).store_reports(run, out)
}
