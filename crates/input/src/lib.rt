// Reading to the end of what can be read.
#![tactic(auto)]

ghost use Rattle.std.specs.Prelude.{◌<◌, ◌≡◌, length};
ghost use Rattle.input.specs.Answer.{answered, most_asked, Came};
ghost use Rattle.input.specs.Room.{Reads};

use std::io;
use std::io::Read;

// What reading to the end found, if no read failed: the room is full, or the input ended before it was; and how many octets
// there are.
#[derive(Clone, Copy)]
pub enum InputRead {
    Full(usize),
    Ended(usize),
}

// What a `read` says: that so many more octets came, or that the input has ended.
pub fn read_answer(got: io::Result<usize>) -> io::Result<Option<usize>>
    ensures { result ≡ answered got }
{
    match got {
        Ok(0) => Ok(None),
        Ok(n) => Ok(Some(n)),
        Err(e) => Err(e),
    }
}

// How many octets a `read` asks for: a piece, where 0 counts as 1, and no more than there is room for.
fn most_asked(piece: usize, room: usize) -> usize
    ensures { result ≡ most_asked piece room }
{
    piece.max(1).min(room)
}

// One `read` of at most a piece, to the front of a room that is not empty.
fn read_piece<R: Read>(from: &mut R, piece: usize, out: &mut [u8]) -> io::Result<Option<usize>>
    requires { 0 < length out.old }
    ensures { Came result (most_asked piece (length out.old)) }
{
    let most = most_asked(piece, out.len());
    read_answer(from.read(&mut out[..most]))
}

// Reads to the front of `out` until the input ends, `out` is full or a read fails, and says which. Each read asks for at
// most `piece` octets, where 0 counts as 1. Which octets come, and when a read fails or says that the input has ended, no
// contract can say.
pub fn read_to_end<R: Read>(from: &mut R, piece: usize, out: &mut [u8]) -> io::Result<InputRead>
    ensures { Reads result (length out.new) }
{
    let mut n = 0;
    while n < out.len() {
        match read_piece(from, piece, &mut out[n..])? {
            Some(more) => n += more,
            None => return Ok(InputRead::Ended(n)),
        }
    }
    Ok(InputRead::Full(n))
}
