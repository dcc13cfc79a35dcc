// The records of a log one by one, back from an end.
ghost use Rattle.std.specs.Prelude.{◌≡◌};
ghost use Rattle.std.specs.Iterator.{at_most};
ghost use Rattle.log_reading.specs.Records.{NextBack};

use log_record::LogRecord;
use octets::Refusal;

// The records of a log from an end back, newest first: each is read from the start of the one before it. Where a question
// fails, it comes last; where the start is reached, nothing more comes.
#[derive(Drop)]
pub struct RecordsBack<'a> {
    log: &'a [u8],
    end: usize,
}

// The records of a log from an end back.
pub fn records_back(log: &[u8], end: usize) -> RecordsBack<'_>
    ensures from { result.log.now ≡ log.now }
    ensures end { result.end ≡ end }
{
    RecordsBack { log, end }
}

impl<'a> Iterator for RecordsBack<'a> {
    type Item = Result<LogRecord, Refusal>;

    ghost next_gives = { λ s answer t. (t.log.now ≡ s.log.now) × NextBack s.log.now s.end answer t.end };

    ghost remaining = { λ s. at_most s.end };

    #[tactic(auto, using(crate::proofs::Reading::starts_before, crate::proofs::Reading::refused_above))]
    fn next(&mut self) -> Option<Result<LogRecord, Refusal>> {
        match log_record::read_record(self.log, self.end) {
            Ok(Some(record)) => {
                self.end = record.start;
                Some(Ok(record))
            }
            Ok(None) => None,
            Err(refusal) => {
                self.end = 0;
                Some(Err(refusal))
            }
        }
    }
}
