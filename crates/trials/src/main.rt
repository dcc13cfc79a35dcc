// Document 01's trials, (a) to (k), proved together as one table (specs/Trials). The stored cases of `replay` and
// `replay_analysis` run the same inputs.
#![tactic(auto)]

ghost use Rattle.std.specs.Prelude.{◌≡◌, length};
ghost use Rattle.trials.specs.Trials.{table, Trials};

// How many rows the table has. Each of them holds.
fn rows() -> u64
    ensures value { result ≡ length table }
    ensures table { Trials }
{
    15
}

// Prints that number.
fn main(rt: HostRuntime) {
    let _ = println!(rt; "{} rows", rows());
}
