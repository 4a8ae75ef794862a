// Rows: handed back as a part of the lent table, joined and marked.
ghost use Rattle.std.specs.Prelude.{◌≡◌, ◌+◌, ◌<◌, length, slice_index, IfOk};
ghost use Rattle.std.specs.Result.{result_map_both};
ghost use Rattle.station.specs.Rows.{union, mark, self_or_suspected_by, suspects_all};
ghost use Rattle.table.specs.Rules.{station_check};
ghost use Rattle.station.specs.Calls.{row_check, row_part, row_offset};

use lists::bytes;
use lists::refusal::Refusal;
use table::Station;
use table::lent::Table;
use table::wiring::Wiring;

// The row of station i, as that very part of the table: its bytes, and its place in the lent memory. A refused call gives the empty part, by rule
// Row part, and no `Err`.
#[tactic(auto, unfolding(crate::specs::Calls::row_part, crate::specs::Calls::row_offset))]
pub fn row(wiring: Wiring, n: usize, table: &[u8], i: Station) -> &[u8]
    ensures row_bytes { result.now ≡ row_part wiring n table.now i.0 }
    ensures same_memory { result.ref_ptr.0 ≡ table.entry.ref_ptr.0 }
    ensures place_of_row { result.ref_ptr.1
        ≡ table.entry.ref_ptr.1 + row_offset wiring n table.now i.0 }
{
    match checked_line(wiring, n, table, i) {
        Ok(lent) => lent.row(i),
        Err(_) => &table[0..0],
    }
}

// Refusals 1 to 4 and 9 of the row on the same inputs.
pub fn check_row(wiring: Wiring, n: usize, table: &[u8], i: Station) -> Result<(), Refusal>
    ensures { result ≡ row_check wiring n table.now i.0 }
{
    checked_line(wiring, n, table, i).map(|_| ())
}

// The lent bytes as a table that has a line i: the same refusals.
#[tactic(auto, unfolding(crate::specs::Calls::row_check))]
fn checked_line(wiring: Wiring, n: usize, table: &[u8], i: Station) -> Result<Table<'_>, Refusal>
    ensures check { result_map_both (λ t. tt) (λ r. r) result ≡ row_check wiring n table.now i.0 }
    ensures same_size { IfOk result (λ t. t.n ≡ n) }
    ensures same_bytes { IfOk result (λ t. t.bytes.now ≡ table.now) }
    ensures same_place { IfOk result (λ t. t.bytes.ref_ptr ≡ table.entry.ref_ptr) }
    ensures has_line { IfOk result (λ t. i.0 < t.n) }
{
    let lent = Table::checked(wiring, n, table)?;
    check_station(&lent, i)?;
    Ok(lent)
}

// Refusal 9.
pub fn check_station(table: &Table, i: Station) -> Result<(), Refusal>
    ensures { result ≡ station_check table.now.n i.0 }
{
    if table.n <= i.0 {
        return Err(Refusal::NoSuchStation);
    }
    Ok(())
}

// Joins another row into the row of station own: the union, but for own's byte about itself.
pub fn join_row(row: &mut [u8], other: &[u8], own: Station)
    ensures { row.new ≡ union row.old other.now own.0 }
{
    let of = own.0 as usize;
    if row.len() <= of {
        bytes::join_bytes(row, other);
        return;
    }
    let kept = row[of];
    bytes::join_bytes(row, other);
    row[of] = kept;
}

// Marks station j as suspected in the row; past the row's end nothing.
pub fn mark_row(row: &mut [u8], j: Station)
    ensures { row.new ≡ mark row.old j.0 }
{
    bytes::put(row, j.0, 1);
}

// Whether the row suspects all stations but own. A loop with an exit is faster here than std's `all`.
#[tactic(auto, using(lists::proofs::Loops::loops))]
pub fn suspects_all(row: &[u8], own: Station) -> bool
    ensures { result ≡ suspects_all (slice_index row.now) own.0 (length row.now) }
{
    for k in 0..row.len() {
        if !self_or_suspected(row, own, k) {
            return false;
        }
    }
    true
}

// Whether k is own or the row suspects it.
fn self_or_suspected(row: &[u8], own: Station, k: usize) -> bool
    requires { k < length row.now }
    ensures { result ≡ self_or_suspected_by (slice_index row.now) own.0 k }
{
    (k == own.0 as usize) | (row[k] == 1)
}
