// What the answers of all layers share.
use datalink::DataLinkError;
use octets::Refusal;
use replay_cases::print;

// What stands in a lent output before the call, and how many octets behind it are looked at too.
pub(crate) const BEFORE: u8 = 0xA5;

const BEHIND: usize = 16;

// The most octets that an answer shows of one thing.
const MOST: usize = 2000;

// Prints a space and octets, or the first of very many.
pub(crate) fn print_octets<P: Print>(to: &P, octets: &[u8]) {
    print::letters(to, b" ");
    print::octets(to, octets, MOST);
}

// The letter of the Rust's error for a refusal; N where it has none.
fn letter(refusal: Refusal) -> u8 {
    match datalink::data_link_error(u8::from(refusal)) {
        Some(DataLinkError::InvalidFrame) => b'I',
        Some(DataLinkError::CrcError) => b'C',
        None => b'N',
    }
}

// Prints E, the letter of the Rust's error and the question.
pub(crate) fn print_refusal<P: Print>(to: &P, refusal: Refusal) {
    let question = u8::from(refusal);
    print::labelled(to, &[b'E', letter(refusal)], usize::from(question), 2);
}

// Prints what a writer answered, the count or the refusal, then its output of that size and some octets behind it. Where no
// call is told, it prints a refusal of question 0, which is none.
pub(crate) fn print_written<P: Print>(
    to: &P,
    written: Option<Result<usize, Refusal>>,
    out: &[u8],
    size: usize,
) {
    match written {
        Some(Ok(count)) => print::labelled(to, b"F", count, 4),
        Some(Err(refusal)) => print_refusal(to, refusal),
        None => print::letters(to, b"EN 00"),
    }
    print::letters(to, b" ");
    print::octets(to, out, size.saturating_add(BEHIND).min(MOST));
}
