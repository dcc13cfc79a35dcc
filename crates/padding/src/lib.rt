// The search for padding in order of arrival: a step for each octet, with the last octet's run remembered.
#![tactic(auto)]

ghost use Rattle.std.specs.Prelude.{◌≡◌, []};
ghost use Rattle.padding.specs.State.{after, run_with, next, counted};
ghost use Rattle.padding.specs.Laws.{Follows, Counts, StepExample, LengthExample};

// What is remembered of the octets so far: whether one came yet, the last one, and how many at the end, one behind another
// and without index 0, equal it.
// No Option in place of `started` and `last`: C gives any three, and numbers::state_of (clause `back`) gives them back.
#[derive(Clone, Copy, Default)]
pub struct PaddingState {
    pub started: bool,
    pub last: u8,
    pub run: usize,
}

impl PaddingState {
    // The state before the first octet.
    #[tactic(auto, unfolding(crate::specs::State::after, crate::specs::Padding::end_length, runs::specs::Front::front))]
    pub fn new() -> PaddingState
        ensures { result ≡ after [] }
    {
        PaddingState::default()
    }

    // The run with an octet more.
    #[tactic(auto, unfolding(crate::specs::State::run_with, crate::specs::State::one_more))]
    fn run_with(self, octet: u8) -> usize
        ensures { result ≡ run_with self octet }
    {
        if !self.started {
            0
        } else if octet != self.last {
            1
        } else {
            self.run.saturating_add(1)
        }
    }

    // The state with an octet more. If this one is the state after some octets, that one is the state after these and `octet`.
    #[tactic(auto, using(crate::proofs::States::follows, crate::proofs::States::step_example))]
    pub fn step(self, octet: u8) -> PaddingState
        ensures value { result ≡ next self octet }
        ensures follows { Follows self octet result }
        ensures example { StepExample }
    {
        PaddingState {
            started: true,
            last: octet,
            run: self.run_with(octet),
        }
    }

    // How many octets are padding: the run, if it has at least 4.
    #[tactic(auto, using(crate::proofs::States::counts, crate::proofs::States::length_example), unfolding(crate::specs::State::counted))]
    pub fn padding_length(self) -> usize
        ensures value { result ≡ counted self }
        ensures padding { Counts self result }
        ensures example { LengthExample }
    {
        if 4 <= self.run { self.run } else { 0 }
    }
}

// The state after some octets: a step for each, the first one first.
pub fn state_after(octets: &[u8]) -> PaddingState
    ensures { result ≡ after octets.now }
{
    octets
        .iter()
        .copied()
        .fold(PaddingState::new(), |state, octet| state.step(octet))
}
