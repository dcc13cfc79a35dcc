// What an answer is printed on, in lower case hexadecimal digits. No contract can say what was printed: these functions have
// none.
// Prints letters.
pub fn letters<P: Print>(to: &P, letters: &[u8]) {
    let _ = to.write_all(letters);
}

// Prints a number of at least that many digits.
pub fn digits<P: Print>(to: &P, value: usize, least: usize) {
    let mut text = [0u8; 16];
    let n = io::hex(value as u64, least, &mut text);
    letters(to, &text[..n]);
}

// Prints a space and a number of at least that many digits.
pub fn number<P: Print>(to: &P, value: usize, least: usize) {
    letters(to, b" ");
    digits(to, value, least);
}

// Prints letters, a space and a number of at least that many digits.
pub fn labelled<P: Print>(to: &P, label: &[u8], value: usize, least: usize) {
    letters(to, label);
    number(to, value, least);
}

// Prints a refusal: E and the question. It is a number and no `Refusal`: any number is printed.
pub fn refusal<P: Print>(to: &P, question: u8) {
    labelled(to, b"E", usize::from(question), 2);
}

// Prints a count behind its label, or the refusal, whose question is any number too.
pub fn count<P: Print>(to: &P, label: &[u8], res: Result<usize, u8>) {
    match res {
        Ok(count) => labelled(to, label, count, 4),
        Err(question) => refusal(to, question),
    }
}

// Prints an octet.
fn octet<P: Print>(to: &P, octet: u8) {
    digits(to, octet as usize, 2);
}

// Prints octets, the first of them where there are more than `most`.
pub fn octets<P: Print>(to: &P, octets: &[u8], most: usize) {
    let mut i = 0;
    while i < octets.len() {
        if i == most {
            return;
        }
        octet(to, octets[i]);
        i += 1;
    }
}

// Prints a number of a list.
fn entry<P: Print>(to: &P, value: u32, least: usize) {
    number(to, value as usize, least);
}

// Prints the numbers of a list, the first of them where there are more than `most`, each of at least that many digits.
pub fn list<P: Print>(to: &P, list: &[u32], most: usize, least: usize) {
    let mut i = 0;
    while i < list.len() {
        if i == most {
            return;
        }
        entry(to, list[i], least);
        i += 1;
    }
}
