// Prints the check tables that controllers burn: `tables_text` decides what is printed. Where it can't be written, standard
// error has a message.
#![tactic(auto)]

ghost use Rattle.std.specs.Prelude.{◌≡◌, ◌+◌, ◌≤◌, length};
ghost use Rattle.octets.specs.Put.{Put};
ghost use Rattle.io.specs.Counts.{IsPrefixLen};
ghost use Rattle.check_tables.specs.Text.{table_lines, rule_text, tables_text};

use crc::CheckRule;

// The octets of the text: two header tables of 256 lines of three, and two data tables of 256 lines of five.
const TEXT: usize = 4096;

// The lines of a header table.
fn put_headers(headers: &[u8], out: &mut [u8], at: usize) -> usize
    requires { at + length (table_lines 2 headers.now) ≤ length out.old }
    ensures { Put (table_lines 2 headers.now) out.old at out.new result }
{
    let mut behind = at;
    for i in 0..headers.len() {
        behind = text::put_hex_2(headers[i], out, behind);
        behind = octets::put(b"\n", out, behind);
    }
    behind
}

// The lines of a data table.
fn put_data(data: &[u16], out: &mut [u8], at: usize) -> usize
    requires { at + length (table_lines 4 «data».now) ≤ length out.old }
    ensures { Put (table_lines 4 «data».now) out.old at out.new result }
{
    let mut behind = at;
    for i in 0..data.len() {
        behind = text::put_hex_4(data[i], out, behind);
        behind = octets::put(b"\n", out, behind);
    }
    behind
}

// The lines of a rule's tables.
fn put_rule(rule: CheckRule, out: &mut [u8], at: usize) -> usize
    requires { at + length (rule_text rule) ≤ length out.old }
    ensures { Put (rule_text rule) out.old at out.new result }
{
    let headers = crc::header_table(rule);
    let data = crc::data_table(rule);
    let behind = put_headers(&headers, out, at);
    put_data(&data, out, behind)
}

// Writes the text into `out`, which it fills, and answers how many octets it has.
fn write_tables(out: &mut [u8; TEXT]) -> usize
    ensures value { result ≡ length tables_text }
    ensures output { out.new ≡ tables_text }
    ensures fits { IsPrefixLen result out.new }
{
    let behind = put_rule(CheckRule::AnnexG, out, 0);
    put_rule(CheckRule::House, out, behind)
}

fn main(rt: HostRuntime) {
    let mut text = [0u8; TEXT];
    let n = write_tables(&mut text);
    if rt.write_all(&text[..n]).is_err() {
        let _ = rt
            .stderr()
            .write_all(b"check_tables: standard output cannot be written\n");
    }
}
