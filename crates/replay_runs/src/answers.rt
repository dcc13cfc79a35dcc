// How the finder's answers are printed.
use octets::Refusal;
use replay_cases::print;
use run_search::Report;

// Prints a report.
fn print_report<P: Print>(to: &P, report: Report) {
    print::labelled(to, b"F", report.place, 4);
    print::number(to, report.count, 4);
}

// Prints what the finder answered.
pub(crate) fn print_found<P: Print>(to: &P, found: Result<Option<Report>, Refusal>) {
    match found {
        Ok(Some(report)) => print_report(to, report),
        Ok(None) => print::letters(to, b"N"),
        Err(refusal) => print::refusal(to, u8::from(refusal)),
    }
}
