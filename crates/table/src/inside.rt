// Bytes and rows of a table of n stations, for any n, also one that is no size: no test of the place is made, so these functions ask for it. They are
// meant for crates that know it; a table of a checked size is a `lent::Table`, whose methods the library goes by.
ghost use Rattle.std.specs.Prelude.{◌≡◌, ◌+◌, ◌<◌, length};
ghost use Rattle.table.specs.Table.{stride, table_length, cell, set_cell, row_start, row};

use crate::{Station, cells};

// Byte c of line i.
#[tactic(auto, using(crate::proofs::CellLaws::byte_inside), unfolding(crate::specs::Table::cell))]
pub fn get(n: u8, table: &[u8], i: Station, c: u16) -> u8
    requires fits { length table.now ≡ table_length n }
    requires line { i.0 < n }
    requires column { c < stride n }
    ensures { result ≡ cell n table.now i.0 c }
{
    let place = cells::line_start(n, i) + c as usize;
    table[place]
}

// Writes byte c of line i.
#[tactic(auto, using(crate::proofs::CellLaws::byte_inside), unfolding(crate::specs::Table::set_cell))]
pub fn put(n: u8, table: &mut [u8], i: Station, c: u16, v: u8)
    requires fits { length table.old ≡ table_length n }
    requires line { i.0 < n }
    requires column { c < stride n }
    ensures { table.new ≡ set_cell n table.old i.0 c v }
{
    let at = cells::line_start(n, i) + c as usize;
    table[at] = v;
}

// The row of line i, as that part of the table.
#[tactic(auto, using(crate::proofs::CellLaws::row_inside), unfolding(crate::specs::Table::row))]
pub fn row(n: u8, table: &[u8], i: Station) -> &[u8]
    requires fits { length table.now ≡ table_length n }
    requires line { i.0 < n }
    ensures row_of_line { result.now ≡ row n table.now i.0 }
    ensures row_len { length result.now ≡ n }
    ensures same_memory { result.ref_ptr.0 ≡ table.entry.ref_ptr.0 }
    ensures place_of_row { result.ref_ptr.1 ≡ table.entry.ref_ptr.1 + row_start n i.0 }
{
    let a = cells::row_start(n, i);
    let e = a + n as usize;
    &table[a..e]
}
