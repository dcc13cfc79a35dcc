// Lists the log that a reader has: reads it to its end, and prints the text that `log_listing` has for it.
#![tactic(auto)]

ghost use Rattle.std.specs.Prelude.{◌≡◌, length};
ghost use Rattle.input.specs.Room.{Reads};
ghost use Rattle.log_input.specs.Listed.{PrintedOf, ListedOf, ListedInput};

use input::InputRead;
use log_listing::{MAX_LOG, MAX_TEXT};
use std::io;
use std::io::Read;

// How many octets were read, whose text is printed, and how many octets of text.
#[derive(Clone, Copy)]
pub struct Listed {
    pub read: usize,
    pub printed: usize,
}

// Why there is no listing: the log can't be read, and nothing is printed; or the text can't be written.
#[derive(Clone, Copy)]
pub enum ListError {
    NotRead,
    NotWritten,
}

// The longest log and one octet more, which tells a longer one.
pub const ROOM: usize = MAX_LOG + 1;

// Room for it. The `ensures` gives what lending it needs.
fn space() -> [u8; ROOM]
    ensures { 65537 ≡ length result }
{
    [0; ROOM]
}

// Room for the longest text.
fn text_space() -> [u8; MAX_TEXT]
    ensures { 393227 ≡ length result }
{
    [0; MAX_TEXT]
}

// Prints the text of a log.
fn print<P: Print>(to: &P, log: &[u8]) -> Result<Listed, ListError>
    ensures { PrintedOf log.now result }
{
    let mut text = text_space();
    let n = log_listing::list_log(log, &mut text);
    match to.write_all(&text[..n]) {
        Ok(()) => Ok(Listed {
            read: log.len(),
            printed: n,
        }),
        Err(_) => Err(ListError::NotWritten),
    }
}

// Prints the text of what reading counted: all of the room where it is full, the octets at its front where the input ended.
fn list_read<P: Print>(
    to: &P,
    read: io::Result<InputRead>,
    room: &[u8],
) -> Result<Listed, ListError>
    requires { Reads read (length room.now) }
    ensures { ListedOf read room.now result }
{
    match read {
        Ok(InputRead::Full(_)) => print(to, room),
        Ok(InputRead::Ended(n)) => print(to, &room[..n]),
        Err(_) => Err(ListError::NotRead),
    }
}

// Lists the log that a reader has, asking for at most `piece` octets at a time. Which octets come, how many, and whether a
// read or write fails is free: no contract can say it. What is printed is the text of as many octets as the answer says.
pub fn list_input<P: Print, R: Read>(
    to: &P,
    from: &mut R,
    piece: usize,
) -> Result<Listed, ListError>
    ensures { ListedInput result }
{
    let mut log = space();
    let read = input::read_to_end(from, piece, &mut log);
    list_read(to, read, &log)
}
