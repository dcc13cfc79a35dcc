// Lists the log on standard input, newest record first: `listing` decides what is printed. Where the log can't be read,
// nothing is printed and standard error has a message.
#![tactic(auto)]

use log_input::{ListError, ROOM};

// Says why there is no listing.
fn complain<P: Print>(to: &P, message: &[u8]) {
    let _ = to.write_all(message);
}

fn main(rt: HostRuntime) {
    match log_input::list_input(&rt, &mut rt.stdin(), ROOM) {
        Ok(_) => {}
        Err(ListError::NotRead) => {
            complain(&rt.stderr(), b"buslog: standard input cannot be read\n")
        }
        Err(ListError::NotWritten) => {
            complain(&rt.stderr(), b"buslog: standard output cannot be written\n")
        }
    }
}
