// What the programs that replay stored cases share: reading a case and printing an answer.
#![tactic(auto)]

pub mod input;
pub mod print;
pub mod spelling;

// At most so many cases stand in a list.
pub const MOST_CASES: usize = 1000000;
