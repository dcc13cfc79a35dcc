// The register of a check, octet by octet through a check table.
ghost use Rattle.std.specs.Prelude.{◌≡◌, List, [], ◌∷◌, ◌++◌, ℕ, suc, ◌%◌, ◌^◌, ◌≤◌, ◌<◌, get_or, fold};
ghost use Rattle.crc_tables.specs.Table.{table_of};
ghost use Rattle.crc.specs.Check.{register, TopBitSet};
ghost use Rattle.crc.specs.Through.{octet_through};

// A check table: an entry for each octet.
pub(crate) trait CheckTable {
    ghost entries: { Self → List ℕ };

    // The entry of the low octet of z.
    fn entry(&self, z: u16) -> u16
        ensures { result ≡ get_or (entries self.now) (z % 256) 0 };
}

impl CheckTable for [u8; 256] {
    ghost entries = { λ table. table };

    fn entry(&self, z: u16) -> u16 {
        u16::from(self[usize::from(z % 256)])
    }
}

impl CheckTable for [u16; 256] {
    ghost entries = { λ table. table };

    fn entry(&self, z: u16) -> u16 {
        self[usize::from(z % 256)]
    }
}

// An octet: XOR it in; the low octet goes through the table, and the high octet moves down.
#[tactic(auto, unfolding(crate::specs::Through::octet_through))]
fn next_register<T: CheckTable>(table: &T, crc: u16, octet: u8) -> u16
    ensures { result ≡ octet_through (T.entries table.now) crc octet }
{
    let z = crc ^ u16::from(octet);
    table.entry(z) ^ (z / 256)
}

// The register after the octets of `s`, from `crc`. Through the table of a constant it is the constant's: another register
// goes on where it stopped; it stays within the width of its constant and its start; and where the constant's top bit is 1,
// no other start of its width comes to the same.
pub(crate) fn register_of<T: CheckTable>(table: &T, crc: u16, s: &[u8]) -> u16
    ensures through { result ≡ fold (octet_through (T.entries table.now)) crc s.now }
    ensures value { (k : ℕ) → T.entries table.now ≡ table_of k → result ≡ register k crc s.now }
    ensures continued { (k : ℕ) (more : List ℕ)
        → T.entries table.now ≡ table_of k
        → register k result more ≡ register k crc (s.now ++ more) }
    ensures fits { (k w : ℕ)
        → T.entries table.now ≡ table_of k
        → 8 ≤ w
        → k < 2 ^ w
        → crc < 2 ^ w
        → result < 2 ^ w }
    ensures injective { (k w other : ℕ)
        → T.entries table.now ≡ table_of k
        → 8 ≤ suc w
        → TopBitSet w k
        → crc < 2 ^ suc w
        → other < 2 ^ suc w
        → register k other s.now ≡ result
        → other ≡ crc }
{
    s.iter()
        .fold(crc, |crc, octet| next_register(table, crc, *octet))
}
