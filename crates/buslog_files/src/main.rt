// Lists the logs that its arguments name, each after its name, by the call that `buslog` makes, and then again with reads of
// a few octets, of one, and of no octets, which count as one: the gate's cases. tools/model makes them and says what is
// printed.
#![tactic(auto)]

use log_input::{ListError, ROOM};
use std::fs::File;
use std::io::Read;
use std::{env, io};

// Lists what a reader has.
fn list_from<R: Read>(rt: &HostRuntime, from: &mut R, piece: usize) {
    if let Err(ListError::NotRead) = log_input::list_input(rt, from, piece) {
        let _ = println!(rt; "not read");
    }
}

// Prints a name, and lists the log that it names.
fn list_file(rt: &HostRuntime, name: &str, piece: usize) {
    let _ = println!(rt; "{name}");
    match File::open(rt, name) {
        Ok(mut log) => list_from(rt, &mut log, piece),
        Err(e) => {
            let _ = eprintln!(rt; "{name}: {e}");
        }
    }
}

// Lists every log, by reads that ask for at most `piece` octets.
fn list_all(rt: &HostRuntime, piece: usize) -> io::Result<()> {
    let _ = println!(rt; "pieces of {piece}");
    for name in env::args(rt)?.skip(1) {
        list_file(rt, name.as_str(), piece);
    }
    Ok(())
}

fn main(rt: HostRuntime) -> io::Result<()> {
    list_all(&rt, ROOM)?;
    list_all(&rt, 5)?;
    list_all(&rt, 1)?;
    list_all(&rt, 0)
}
