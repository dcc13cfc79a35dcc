// The search through the rule's header table: a call puts it on the stack once, and not for each header.
ghost use Rattle.std.specs.Prelude.{◌≡◌, ◌==◌, ◌+◌, ◌*◌, ◌/◌, ◌≤◌, ◌<◌, length, position, set, take};
ghost use Rattle.octets.specs.Output.{at_front};
ghost use Rattle.crc_tables.specs.Table.{table_of};
ghost use Rattle.crc.specs.Rule.{header_constant};
ghost use Rattle.run_search.specs.Acceptable.{acceptable};
ghost use Rattle.run_search.specs.Reports.{rest, list_numbers};
ghost use Rattle.run_search.specs.Search.{next_frame};
ghost use Rattle.run_search.specs.Steps.{NoneBefore};

use crate::size_at;
use crc::CheckRule;
use mstp_frame::{
    MSTP_BROADCAST, MSTP_HEADER_SIZE, MSTP_LAST_TYPE, MSTP_MAX_DATA_LENGTH, MSTP_PREAMBLE_55,
};

// The place of the first octet 55, if there is one.
fn first_55(octets: &[u8]) -> Option<usize>
    ensures { result ≡ position (λ octet. octet == 0x55) octets.now }
{
    octets.iter().position(|octet| *octet == MSTP_PREAMBLE_55)
}

// The next octet 55 from a place on, or the end; a place behind the end stays.
fn next_55(run: &[u8], from: usize) -> usize
    ensures { NoneBefore run.now from result }
{
    if run.len() <= from {
        return from;
    }
    match first_55(&run[from..]) {
        Some(i) => from + i,
        None => run.len(),
    }
}

// Stores place and octet count of a frame behind those of n others.
// Kept a list of numbers: the C interface has it so.
fn store(out: &mut [u32], n: usize, place: usize, count: usize)
    requires { (2 * n + 1 < length out.old) × (place + count ≤ 65535) }
    ensures { out.new ≡ set (set out.old (2 * n) place) (2 * n + 1) count }
{
    out[2 * n] = place as u32;
    out[2 * n + 1] = count as u32;
}

// A rule, and the table of its header check.
#[derive(Drop)]
pub(crate) struct FrameSearch {
    rule: CheckRule,
    table: [u8; 256],
    ghost ruled: { table ≡ table_of (header_constant rule) },
}

impl FrameSearch {
    // The search under a rule.
    pub(crate) fn new(rule: CheckRule) -> FrameSearch
        ensures { result.rule ≡ rule }
    {
        FrameSearch {
            rule,
            table: crc::header_table(rule),
        }
    }

    // Whether some octets are an acceptable frame: one that reading accepts, with a source other than 255 and at most 501
    // data octets.
    // Kept a return: tried as one `&&`, a reading of tokens took 8 % more instructions.
    pub(crate) fn acceptable(&self, frame: &[u8]) -> bool
        ensures { result ≡ acceptable self.now.rule frame.now }
    {
        if frame.len() < MSTP_HEADER_SIZE
            || !mstp_frame::begins_preamble(frame)
            || MSTP_LAST_TYPE < mstp_frame::frame_type(frame)
            || mstp_frame::source(frame) == MSTP_BROADCAST
            || MSTP_MAX_DATA_LENGTH < usize::from(mstp_frame::data_length(frame))
            || crc::header_crc_through(&self.table, mstp_frame::field_octets(frame))
                != mstp_frame::header_check_sent(frame)
        {
            return false;
        }
        mstp_decode::data_question(self.rule, frame).is_ok()
    }

    // The place of the first acceptable frame from a place on, or the run's length.
    // Kept a number: tried as `Option<usize>`, a reading of tokens took 14 % more instructions.
    #[tactic(auto, using(crate::proofs::Turns::runs_off, crate::proofs::Turns::broken, crate::proofs::Turns::hit, crate::proofs::Searches::search_end), unfolding(crate::specs::Search::next_frame))]
    pub(crate) fn next_frame(&self, run: &[u8], from: usize) -> usize
        ensures { result ≡ next_frame self.now.rule run.now from }
    {
        let mut p = next_55(run, from);
        while p < run.len() {
            let size = size_at(run, p);
            // Kept two arms: tried as one, a reading of tokens took 10 % more instructions.
            if run.len() - p < size {
                p = next_55(run, p + 1); // it would run off the end
            } else if self.acceptable(&run[p..p + size]) {
                return p;
            } else {
                p = next_55(run, p + 1); // it is broken
            }
        }
        run.len()
    }

    // Stores place and octet count of each frame at the front of a list, as many as it has room for, and answers how many
    // frames there are.
    // Kept a `while`: it goes from frame to frame, and by no index.
    #[tactic(auto, using(crate::proofs::Loop::past_start, crate::proofs::Loop::same, crate::proofs::Loop::past_stored, crate::proofs::Loop::past_full))]
    pub(crate) fn store_reports(&self, run: &[u8], out: &mut [u32]) -> usize
        requires { length run.now ≤ 65535 }
        ensures value { result ≡ length (rest self.now.rule run.now 0) }
        ensures output { out.new
            ≡ at_front (list_numbers (take (length out.old / 2) (rest self.now.rule run.now 0))) out.old }
    {
        let mut n: usize = 0;
        let mut p = self.next_frame(run, 0);
        while p < run.len() {
            let size = size_at(run, p);
            if n < out.len() / 2 {
                store(out, n, p, size);
            }
            n += 1;
            p = self.next_frame(run, p + size);
        }
        n
    }
}
