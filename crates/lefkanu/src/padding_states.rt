// The search for padding, octet by octet.
ghost use Rattle.std.specs.Prelude.{◌≡◌, [], ◌∷◌, Some, IfSome};
ghost use Rattle.padding.specs.State.{after, next, counted};
ghost use Rattle.padding.specs.Laws.{Counts};
ghost use Rattle.numbers.specs.State.{state_numbers, state_of, of_state, NamesNext};
ghost use Rattle.answers.specs.Told.{no_case};

use answers::NO_CASE;

// The state with an octet more, in the place of `state`. Three zeros are the state before the first octet, and the state of
// the numbers afterwards is the one that follows.
#[tactic(auto, using(crate::proofs::States::zeros))]
#[unsafe(no_mangle)]
pub extern "C" fn lefkanu_padding_step(state: &mut [usize; 3], octet: u8) -> u8
    ensures value { result ≡ of_state state.old (λ _. 0) no_case }
    ensures state { state.new
        ≡ of_state state.old (λ a. state_numbers (next a octet)) state.old }
    ensures starts { state_of (0 ∷ 0 ∷ 0 ∷ []) ≡ Some (after []) }
    ensures follows { IfSome (state_of state.old) (λ a. NamesNext a octet state.new) }
{
    let Some(known) = numbers::state_of(*state) else {
        return NO_CASE;
    };
    *state = numbers::state_numbers(known.step(octet));
    0
}

// How many of the octets so far are padding, into `length`.
#[unsafe(no_mangle)]
pub extern "C" fn lefkanu_padding_length(state: &[usize; 3], length: &mut usize) -> u8
    ensures value { result ≡ of_state state.now (λ _. 0) no_case }
    ensures length { length.new ≡ of_state state.now counted length.old }
    ensures padding { IfSome (state_of state.now) (λ a. Counts a length.new) }
{
    let Some(known) = numbers::state_of(*state) else {
        return NO_CASE;
    };
    *length = known.padding_length();
    0
}
