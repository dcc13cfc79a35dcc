// Statistics, patterns and the analysis.
ghost use Rattle.std.specs.Prelude.{◌≡◌};
ghost use Rattle.statistics.specs.Statistics.{statistics};
ghost use Rattle.patterns.specs.Detect.{patterns_answer, patterns_output};
ghost use Rattle.analysis.specs.Analysis.{analysis};
ghost use Rattle.numbers.specs.Named.{under_rule};
ghost use Rattle.octets.specs.Answer.{answer_number};
ghost use Rattle.answers.specs.Told.{no_case, count_or, statistics_distribution, statistics_counts};
ghost use Rattle.answers.specs.Told.{analysis_count, analysis_result, analysis_distribution, analysis_counts};

use answers::NO_CASE;

// How many octets have each value; and zeros, octets of 80 or more and the longest run, into `counts`.
#[unsafe(no_mangle)]
pub extern "C" fn lefkanu_calculate_frame_statistics(
    frame: &[u8],
    byte_distribution: &mut [u32; 256],
    counts: &mut [usize; 5],
) -> u8
    ensures value { result ≡ answer_number (statistics frame.now) }
    ensures distribution { byte_distribution.new
        ≡ statistics_distribution byte_distribution.old (statistics frame.now) }
    ensures counts { counts.new ≡ statistics_counts counts.old (statistics frame.now) }
{
    answers::tell_statistics(
        statistics::calculate_frame_statistics(frame),
        byte_distribution,
        counts,
    )
}

// The patterns at the front of `out`, whose rest stays, four numbers each, and how many there are into `count`.
#[unsafe(no_mangle)]
pub extern "C" fn lefkanu_detect_patterns(frame: &[u8], out: &mut [u32], count: &mut usize) -> u8
    ensures value { result ≡ answer_number (patterns_answer frame.now out.old) }
    ensures output { out.new ≡ patterns_output frame.now out.old }
    ensures count { count.new
        ≡ count_or count.old (patterns_answer frame.now out.old) }
{
    answers::tell_count(patterns::detect_patterns(frame, out), count)
}

// Validation, statistics and patterns together.
#[unsafe(no_mangle)]
pub extern "C" fn lefkanu_analyze_frame(
    rule: u8,
    frame: &[u8],
    res: &mut [usize; 32],
    byte_distribution: &mut [u32; 256],
    counts: &mut [usize; 5],
    out: &mut [u32],
    count: &mut usize,
) -> u8
    ensures value { result ≡ under_rule rule (λ rule. answer_number (analysis rule frame.now out.old)) no_case }
    ensures res { res.new
        ≡ under_rule rule (λ rule. analysis_result res.old (analysis rule frame.now out.old))
        res.old }
    ensures distribution { byte_distribution.new ≡ under_rule rule
        (λ rule. analysis_distribution byte_distribution.old
        (analysis rule frame.now out.old))
        byte_distribution.old }
    ensures counts { counts.new
        ≡ under_rule rule (λ rule. analysis_counts counts.old (analysis rule frame.now out.old))
        counts.old }
    ensures output { out.new
        ≡ under_rule rule (λ _. patterns_output frame.now out.old) out.old }
    ensures count { count.new
        ≡ under_rule rule (λ rule. analysis_count count.old (analysis rule frame.now out.old))
        count.old }
{
    let Some(rule) = numbers::rule_named(rule) else {
        return NO_CASE;
    };
    let answer = analysis::analyze_frame(rule, frame, out);
    answers::tell_analysis(answer, res, byte_distribution, counts, count)
}
