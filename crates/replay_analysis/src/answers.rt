// How answers are printed.
use analysis::FrameAnalysis;
use findings::ValidationResult;
use octets::Refusal;
use padding::PaddingState;
use replay_cases::print;
use statistics::FrameStatistics;

// The most numbers of a list that are printed.
const MOST: usize = 60;

// Prints the three numbers of an entry.
fn print_entry<P: Print>(to: &P, numbers: [usize; 3]) {
    let [kind, first, second] = numbers;
    print::number(to, kind, 1);
    print::number(to, first, 6);
    print::number(to, second, 6);
}

// Prints the result of a validator: v for valid, x for not, the link, the size, the counts and all entries.
pub(crate) fn print_result<P: Print>(to: &P, res: ValidationResult) {
    print::letters(to, if res.is_valid { b"v" } else { b"x" });
    print::number(to, usize::from(findings::link_number(res.link_type)), 1);
    print::number(to, res.frame_size, 6);
    print::number(to, res.errors.len(), 1);
    print::number(to, res.warnings.len(), 1);
    for error in res.errors.entries() {
        print_entry(to, findings::entry_numbers(error));
    }
    for warning in res.warnings.entries() {
        print_entry(to, findings::entry_numbers(warning));
    }
}

// Prints what stands for a result where there is none: zeros.
fn print_no_result<P: Print>(to: &P) {
    print::letters(to, b"x 0 000000 0 0");
    for _ in 0..9 {
        print_entry(to, [0, 0, 0]);
    }
}

// Prints statistics, and the counts that are not 0.
fn print_statistics<P: Print>(to: &P, statistics: FrameStatistics) {
    let longest_run = statistics.longest_run;
    print::number(to, statistics.null_bytes, 6);
    print::number(to, statistics.high_bytes, 6);
    print::number(to, usize::from(longest_run.octet), 2);
    print::number(to, longest_run.length, 6);
    print::number(to, longest_run.start, 6);
    for (value, count) in statistics.byte_distribution.iter().enumerate() {
        if *count != 0 {
            print::number(to, value, 2);
            print::letters(to, b":");
            print::digits(to, *count as usize, 6);
        }
    }
}

// Prints what stands for statistics where there are none: zeros.
fn print_no_statistics<P: Print>(to: &P) {
    print::letters(to, b" 000000 000000 00 000000 000000");
}

// Prints what the statistics answered.
pub(crate) fn print_statistics_answer<P: Print>(to: &P, answer: Result<FrameStatistics, Refusal>) {
    match answer {
        Ok(statistics) => {
            print::letters(to, b"F");
            print_statistics(to, statistics);
        }
        Err(refusal) => {
            print::refusal(to, u8::from(refusal));
            print_no_statistics(to);
        }
    }
}

// Prints a list of that size, or the front of a long one.
pub(crate) fn print_list<P: Print>(to: &P, list: &[u32], size: usize) {
    print::list(to, list, size.min(MOST), 8);
}

// Prints a state's run, and how many octets are padding then.
fn print_state<P: Print>(to: &P, state: PaddingState) {
    print::number(to, state.run, 6);
    print::number(to, state.padding_length(), 6);
}

// Prints the state after each octet, a step for each.
pub(crate) fn print_steps<P: Print>(to: &P, frame: &[u8]) {
    let mut state = PaddingState::new();
    for octet in frame {
        state = state.step(*octet);
        print_state(to, state);
    }
}

// Prints what the analysis answered.
pub(crate) fn print_analysis<P: Print>(to: &P, answer: Result<FrameAnalysis, Refusal>) {
    match answer {
        Ok(analysis) => {
            print::labelled(to, b"F", analysis.patterns, 4);
            print::letters(to, b" ");
            print_result(to, analysis.validation);
            print_statistics(to, analysis.statistics);
        }
        Err(refusal) => {
            print::refusal(to, u8::from(refusal));
            print::letters(to, b" ");
            print_no_result(to);
            print_no_statistics(to);
        }
    }
}
