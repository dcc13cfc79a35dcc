// The analysis of a frame: `analyze_frame` of validation.rs.
#![tactic(auto)]

ghost use Rattle.std.specs.Prelude.{◌≡◌};
ghost use Rattle.patterns.specs.Detect.{patterns_output};
ghost use Rattle.statistics.specs.Laws.{LongestStands};
ghost use Rattle.analysis.specs.Analysis.{analysis, Analyzes};

use crc::CheckRule;
use findings::ValidationResult;
use octets::Refusal;
use statistics::FrameStatistics;
use std::marker::Model;

// What the analysis answers: the count of entries in the lent list, the validation and the statistics.
#[derive(Clone, Copy)]
pub struct FrameAnalysis {
    pub patterns: usize,
    pub validation: ValidationResult,
    pub statistics: FrameStatistics,
}

// A contract sees the fields. With this an analysis is copied where it is used twice.
impl Model for FrameAnalysis {
    ghost use Rattle.analysis.specs.Outcome.{Outcome};

    ghost Value = { Outcome };

    ghost view = { λ a. record { patterns = a.patterns; validation = a.validation; statistics = a.statistics } };

    ghost inverse = { λ v. record { patterns = v.patterns; validation = v.validation; statistics = v.statistics } };
}

// Validates a frame, counts its octets and writes its patterns at the front of `out`, whose rest stays. The longest run is
// that of the statistics, with its start. Or refuses by the first of questions 31 and 32 that fails, and writes nothing.
pub fn analyze_frame(
    rule: CheckRule,
    frame: &[u8],
    out: &mut [u32],
) -> Result<FrameAnalysis, Refusal>
    ensures value { result ≡ analysis rule frame.now out.old }
    ensures output { out.new ≡ patterns_output frame.now out.old }
    ensures longest { Analyzes (LongestStands frame.now) result }
{
    let patterns = patterns::detect_patterns(frame, out)?;
    let statistics = statistics::calculate_frame_statistics(frame)?;
    Ok(FrameAnalysis {
        patterns,
        validation: validation::validate_frame(rule, frame),
        statistics,
    })
}
