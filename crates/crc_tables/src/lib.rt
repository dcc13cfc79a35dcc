// The check tables, one for each constant: the entry of an octet is that octet after eight steps, with nothing added before
// or complemented after. (A function for each: a const parameter can't choose among values or types.)
#![tactic(auto, unfolding(crate::specs::Table::table_of, crate::specs::Table::entries, crate::specs::Steps::steps, crate::specs::Steps::step, crate::specs::Steps::xor_if))]

mod tables;

ghost use Rattle.std.specs.Prelude.{◌≡◌};
ghost use Rattle.crc_tables.specs.Table.{table_of};

// The header check's table under Annex G.
pub fn header_annex_g() -> &'static [u8; 256]
    ensures { result.now ≡ table_of 0x81 }
{
    &tables::HEADER_ANNEX_G
}

// The data check's table under Annex G.
pub fn data_annex_g() -> &'static [u16; 256]
    ensures { result.now ≡ table_of 0x8408 }
{
    &tables::DATA_ANNEX_G
}

// The header check's table under the house rule.
pub fn header_house() -> &'static [u8; 256]
    ensures { result.now ≡ table_of 0x55 }
{
    &tables::HEADER_HOUSE
}

// The data check's table under the house rule.
pub fn data_house() -> &'static [u16; 256]
    ensures { result.now ≡ table_of 0xA001 }
{
    &tables::DATA_HOUSE
}
