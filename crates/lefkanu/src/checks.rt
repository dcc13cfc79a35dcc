// The check octets.
ghost use Rattle.std.specs.Prelude.{◌≡◌};
ghost use Rattle.crc_tables.specs.Table.{table_of};
ghost use Rattle.crc.specs.Rule.{header_constant, header_check, data_constant, data_check};
ghost use Rattle.numbers.specs.Named.{under_rule};
ghost use Rattle.answers.specs.Told.{no_case};

use answers::NO_CASE;

// The header check of the five octets behind the preamble, into `crc`.
#[unsafe(no_mangle)]
pub extern "C" fn lefkanu_calculate_header_crc(rule: u8, header: &[u8; 5], crc: &mut u8) -> u8
    ensures value { result ≡ under_rule rule (λ _. 0) no_case }
    ensures crc { crc.new ≡ under_rule rule (λ rule. header_check rule header.now) crc.old }
{
    let Some(rule) = numbers::rule_named(rule) else {
        return NO_CASE;
    };
    *crc = crc::calculate_header_crc(rule, *header);
    0
}

// The data check of any octets, into `crc`.
#[unsafe(no_mangle)]
pub extern "C" fn lefkanu_crc16_mstp(rule: u8, data: &[u8], crc: &mut u16) -> u8
    ensures value { result ≡ under_rule rule (λ _. 0) no_case }
    ensures crc { crc.new
        ≡ under_rule rule (λ rule. data_check rule «data».now) crc.old }
{
    let Some(rule) = numbers::rule_named(rule) else {
        return NO_CASE;
    };
    *crc = crc::crc16_mstp(rule, data);
    0
}

// The table of the header check, into `table`: entry i is i after eight steps.
#[unsafe(no_mangle)]
pub extern "C" fn lefkanu_header_table(rule: u8, table: &mut [u8; 256]) -> u8
    ensures value { result ≡ under_rule rule (λ _. 0) no_case }
    ensures table { table.new ≡ under_rule rule (λ rule. table_of (header_constant rule)) table.old }
{
    let Some(rule) = numbers::rule_named(rule) else {
        return NO_CASE;
    };
    *table = crc::header_table(rule);
    0
}

// The table of the data check, into `table`.
#[unsafe(no_mangle)]
pub extern "C" fn lefkanu_data_table(rule: u8, table: &mut [u16; 256]) -> u8
    ensures value { result ≡ under_rule rule (λ _. 0) no_case }
    ensures table { table.new ≡ under_rule rule (λ rule. table_of (data_constant rule)) table.old }
{
    let Some(rule) = numbers::rule_named(rule) else {
        return NO_CASE;
    };
    *table = crc::data_table(rule);
    0
}
