// The store: the last tables received for one Q of 128 to 254. No other library names its fields.
#![tactic(auto)]

ghost use Rattle.std.specs.Prelude.{◌≡◌};
ghost use Rattle.kept.specs.Kept as Store;

use wire::TableSource;

#[repr(C)]
#[derive(Clone, Copy)]
pub struct Kept {
    // 0 stands for nothing kept: C's struct.
    pub q: u32,
    pub tables: [u8; 128],
}

// Nothing kept.
#[tactic(auto, unfolding(crate::specs::Kept::blank))]
pub fn none() -> Kept
    ensures { Store.IsNone result }
{
    Kept {
        q: 0,
        tables: [0; 128],
    }
}

// Whether tables are kept for a Q.
#[tactic(auto, unfolding(crate::specs::Kept::has))]
pub fn has(kept: &Kept, q: u32) -> bool
    ensures { Store.TellsHas kept.now q result }
{
    is_keepable(q) && kept.q == q
}

// The tables kept for a Q, and 128 zeros where there are none.
#[tactic(auto, unfolding(crate::specs::Kept::find, crate::specs::Kept::blank))]
pub fn find(kept: &Kept, q: u32) -> [u8; 128]
    ensures { Store.Finds kept.now q result }
{
    if has(kept, q) { kept.tables } else { [0; 128] }
}

// The store with these tables for a Q; as it was where tables of that Q are not kept.
#[tactic(auto, unfolding(crate::specs::Kept::keep))]
pub fn keep(kept: &Kept, q: u32, tables: [u8; 128]) -> Kept
    ensures { Store.Keeps kept.now q tables result }
{
    if is_keepable(q) {
        Kept { q, tables }
    } else {
        *kept
    }
}

fn is_keepable(q: u32) -> bool
    ensures { result ≡ Store.is_keepable q }
{
    matches!(wire::table_source(q), TableSource::KeptOrBrought)
}

// Whether nothing is kept, all of it 0, or tables of a Q of 128 to 254 without a 0.
#[tactic(auto, using(wire::specs::Tables::full_of_128), unfolding(crate::specs::Kept::well_kept))]
pub fn well_kept(kept: &Kept) -> bool
    ensures { Store.TellsWell kept.now result }
{
    if kept.q == 0 {
        is_blank(&kept.tables)
    } else {
        is_keepable(kept.q) && wire::are_full(&kept.tables)
    }
}

// Whether no tables are known: all 128 numbers are 0.
pub fn is_blank(tables: &[u8; 128]) -> bool
    ensures { Store.TellsBlank tables.now result }
{
    *tables == [0; 128]
}
