// A validator's result as an array of numbers, for callers in other languages.
#![tactic(auto)]

ghost use Rattle.std.specs.Prelude.{◌≡◌, ◌≤◌, ◌*◌, ◌++◌, [], length, drop};
ghost use Rattle.std.specs.List.{flat_map};
ghost use Rattle.findings.specs.Entries.{entry_numbers};
ghost use Rattle.findings.specs.Result.{validation_result};
ghost use Rattle.result_numbers.specs.Layout.{result_numbers};

use findings::{Finding, LinkType, ValidationResult, entry_numbers, link_number};

// Numbers in front of the entries, and the place behind those of the errors.
const ERRORS: usize = 5;

const WARNINGS: usize = 26;

// Puts three numbers for each of some entries, one behind the other. What is behind them stays.
fn put_entries<F: Finding>(entries: &[Option<F>], numbers: &mut [usize])
    requires { 3 * length entries.now ≤ length numbers.old }
    ensures { numbers.new ≡ flat_map (entry_numbers F.numbers_of) entries.now ++ drop (3 * length entries.now) numbers.old }
{
    for i in 0..entries.len() {
        let [kind, first, second] = entry_numbers(entries[i]);
        numbers[3 * i] = kind;
        numbers[3 * i + 1] = first;
        numbers[3 * i + 2] = second;
    }
}

// Puts the numbers of a validator's result in place of others: 1 if valid else 0, the link, the size, how many errors and
// warnings, and three numbers for each of the seven entries of errors and the two of warnings.
pub fn put_numbers(res: &ValidationResult, numbers: &mut [usize; 32])
    ensures { numbers.new ≡ result_numbers res.now }
{
    *numbers = [0; 32];
    numbers[0] = octets::one_if(res.is_valid);
    numbers[1] = usize::from(link_number(res.link_type));
    numbers[2] = res.frame_size;
    numbers[3] = res.errors.len();
    numbers[4] = res.warnings.len();
    put_entries(res.errors.found(), &mut numbers[ERRORS..WARNINGS]);
    put_entries(res.warnings.found(), &mut numbers[WARNINGS..]);
}

// The numbers of a validator's result.
pub fn result_numbers(res: ValidationResult) -> [usize; 32]
    ensures { result ≡ result_numbers res }
{
    let mut numbers = [0; 32];
    put_numbers(&res, &mut numbers);
    numbers
}

// The numbers of a result without findings.
#[tactic(auto, unfolding(crate::specs::Layout::result_numbers, findings::specs::Entries::filled))]
pub fn clean_numbers(link: Option<LinkType>, size: usize) -> [usize; 32]
    ensures { result ≡ result_numbers (validation_result link size [] []) }
{
    let mut numbers = [0; 32];
    numbers[0] = 1;
    numbers[1] = usize::from(link_number(link));
    numbers[2] = size;
    numbers
}
