// Answers a list of calls of the log on one buffer: standard input has one a line, as tools/model writes them, and
// standard output gets the answers. The file `stdout` beside it has that model's: docs/REPLAY.md.
#![tactic(auto)]

mod answers;
mod calls;

ghost use Rattle.std.specs.Prelude.{◌≡◌, length};

use replay_cases::input;

// The buffer at first. The `ensures` gives what lending it as a slice needs.
fn space() -> [u8; 4096]
    ensures { 4096 ≡ length result }
{
    [0xA5; 4096]
}

fn main(rt: HostRuntime) {
    let mut stdin = rt.stdin();
    let mut octets = space();
    let buffer: &mut [u8] = &mut octets;
    for _ in 0..replay_cases::MOST_CASES {
        let letter = input::letter(&mut stdin);
        if letter == 0 {
            return;
        }
        calls::answer(&mut stdin, &rt, letter, buffer);
    }
}
