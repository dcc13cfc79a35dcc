// How answers are printed.
use log_reading::RecordsCounted;
use log_record::LogRecord;
use octets::Refusal;
use replay_cases::print;

// Prints a time.
fn print_time<P: Print>(to: &P, time: Option<u32>) {
    match time {
        Some(second) => print::number(to, second as usize, 8),
        None => print::letters(to, b" -"),
    }
}

// Prints a record and its payload.
fn print_record<P: Print>(to: &P, record: LogRecord, payload: &[u8]) {
    print::labelled(to, b"R", usize::from(u8::from(record.kind)), 2);
    print_time(to, record.time);
    print::number(to, record.start, 4);
    print::number(to, record.length, 4);
    print::letters(to, b" ");
    print::octets(to, payload, payload.len());
}

// Prints what reading answered.
pub(crate) fn print_read<P: Print>(
    to: &P,
    read: Result<Option<LogRecord>, Refusal>,
    payload: &[u8],
) {
    match read {
        Ok(Some(record)) => print_record(to, record, payload),
        Ok(None) => print::letters(to, b"S"),
        Err(refusal) => print::refusal(to, u8::from(refusal)),
    }
}

// Prints what a whole reading answered.
pub(crate) fn print_counted<P: Print>(to: &P, counted: RecordsCounted) {
    print::labelled(to, b"C", counted.count, 4);
    print::letters(to, b" ");
    print_read(to, counted.last.map(|()| None), &[]);
}
