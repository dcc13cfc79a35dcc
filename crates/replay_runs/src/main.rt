// Answers a list of cases of the finder and the whole reading: standard input has one a line, as tools/model
// prints them, and standard output gets the answers. The file `stdout` beside it has that model's: docs/REPLAY.md.
#![tactic(auto)]

mod answers;
mod cases;
mod pieces;

use replay_cases::input;

fn main(rt: HostRuntime) {
    let mut stdin = rt.stdin();
    for _ in 0..replay_cases::MOST_CASES {
        let kind = input::letter(&mut stdin);
        if kind == 0 {
            return;
        }
        cases::answer(&mut stdin, &rt, kind);
    }
}
