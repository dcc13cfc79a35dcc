// The text that is printed for a log, written into lent memory: a line for each record, newest first, and a last line.
#![tactic(auto)]

mod line;

ghost use Rattle.std.specs.Prelude.{◌≡◌, ◌≤◌, length};
ghost use Rattle.octets.specs.Output.{at_front};
ghost use Rattle.octets.specs.Put.{Put};
ghost use Rattle.io.specs.Counts.{IsPrefixLen};
ghost use Rattle.log_listing.specs.Listing.{log_lines, listing, ListsWritten, ListsTorn};

// Most octets of a log that is read.
pub const MAX_LOG: usize = 65536;

// Octets enough for every text: six for each octet of the log, and 11 for the longest last line, `stopped 44`. A record
// without a time has four octets or more and a line of at most 23; one with a time eight or more and a line of at most 32.
pub const MAX_TEXT: usize = 393227;

// The lines of a log.
fn put_lines(log: &[u8], out: &mut [u8]) -> usize
    requires { length (log_lines log.now) ≤ length out.old }
    ensures { Put (log_lines log.now) out.old 0 out.new result }
{
    let mut at: usize = 0;
    for record in log_reading::records_back(log, log.len()) {
        match record {
            Ok(record) => {
                let payload = log_record::payload_in(log, record);
                at = line::put_record_line(record, payload, out, at);
            }
            Err(refusal) => return line::put_stopped(refusal, out, at),
        }
    }
    octets::put(b"end\n", out, at)
}

// Writes the text of a log at the front of `out`, whose rest stays, and answers how many octets it has. Of a log that
// was written by appending to an empty buffer it is the lines of the records that were taken, newest first, and `end`. If
// such a log has lost octets at its front, it is the lines of the records that are still whole, and then `end`, or
// `stopped 41` or `stopped 44` if a record is torn.
pub fn list_log(log: &[u8], out: &mut [u8; MAX_TEXT]) -> usize
    ensures value { result ≡ length (listing log.now) }
    ensures output { out.new ≡ at_front (listing log.now) out.old }
    ensures fits { IsPrefixLen result out.new }
    ensures written { ListsWritten log.now }
    ensures torn { ListsTorn log.now }
{
    if MAX_LOG < log.len() {
        return octets::put(b"long\n", out, 0);
    }
    put_lines(log, out)
}
