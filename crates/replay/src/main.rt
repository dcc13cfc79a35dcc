// Answers a list of cases: standard input has one a line, as tools/oracle prints them, and standard output gets the
// answers. The file `stdout` beside it has the Rust's, where it has one: docs/REPLAY.md.
#![tactic(auto)]

mod answers;
mod bip_cases;
mod cases;
mod ethernet_cases;
mod mstp_cases;

use replay_cases::input;

fn main(rt: HostRuntime) {
    let mut stdin = rt.stdin();
    for _ in 0..replay_cases::MOST_CASES {
        let kind = input::letter(&mut stdin);
        if kind == 0 {
            return;
        }
        cases::answer(&mut stdin, &rt, kind);
    }
}
