// The slot of a station of a table, by its own row. The commissioning sheet has the numbers by the row that suspects just the dead: they are the
// same once the station suspects all who are not live, and nobody else.
ghost use Rattle.std.specs.Prelude.{◌≡◌, ◌<◌, ◌≤◌, length, IfOk};
ghost use Rattle.std.specs.Result.{result_map_both};
ghost use Rattle.slots.specs.Board.{slot_by_row, slot_check, slot_answer};

use lists::refusal::Refusal;
use station::rows;
use table::Station;
use table::lent::Table;
use table::wiring::Wiring;

// How many tests a station makes a round, and the most that one more dead station can make of them, by which its slot is timed.
#[derive(Clone, Copy, Debug, Default, PartialEq, Eq)]
pub struct Slot {
    pub tests: u8,
    pub most: u8,
}

// The slot of live station i, by its row in the table.
#[tactic(auto, unfolding(crate::specs::Board::slot_answer))]
pub fn slot_of(n: usize, table: &[u8], i: Station) -> Result<Slot, Refusal>
    ensures { result ≡ slot_answer n table.now i.0 }
{
    let lent = checked(n, table, i)?;
    Ok(slot_by_row(lent.n, lent.row(i), i))
}

// The slot of i by its row.
fn slot_by_row(n: u8, row: &[u8], i: Station) -> Slot
    requires { length row.now ≤ 64 }
    ensures { result ≡ slot_by_row n row.now i.0 }
{
    // A copy, since a row is marked, and put back.
    let mut copy = [0; 64];
    let end = row.len();
    copy[..end].copy_from_slice(row);
    Slot {
        tests: crate::tests(n, row, i),
        most: crate::most_tests(n, &mut copy[..end], i),
    }
}

// Refusals 1 to 4, 9, 10.
#[tactic(auto, using(station::proofs::Refusals::checked_ok, station::proofs::Refusals::station_ok), unfolding(crate::specs::Board::slot_check))]
fn checked(n: usize, table: &[u8], i: Station) -> Result<Table<'_>, Refusal>
    ensures check { result_map_both (λ t. tt) (λ r. r) result ≡ slot_check n table.now i.0 }
    ensures same_size { IfOk result (λ t. t.n ≡ n) }
    ensures same_bytes { IfOk result (λ t. t.bytes.now ≡ table.now) }
    ensures has_line { IfOk result (λ t. i.0 < t.n) }
    ensures top { IfOk result (λ t. t.n ≤ 64) }
{
    let lent = Table::checked(Wiring::Cube, n, table)?;
    rows::check_station(&lent, i)?;
    if !lent.is_live(i) {
        return Err(Refusal::NotLive);
    }
    Ok(lent)
}
