// Which distances are due, who is first at the others, and the assignment.
ghost use Rattle.std.specs.Prelude.{◌≡◌, ◌+◌, ◌*◌, ◌<◌, length, Some, IfOk, option_map};
ghost use Rattle.std.specs.Result.{result_map_both};
ghost use Rattle.table.specs.Sizes.{level};
ghost use Rattle.table.specs.Table.{row};
ghost use Rattle.station.specs.Tests.{unsuspected, first, answer_of, answer, stands, due_distances};
ghost use Rattle.station.specs.Ahead.{block_end};
ghost use Rattle.station.specs.Calls.{answer_value, other_distances, assignment_entries, assignment_check, assignment_after, assignment_answer};

use crate::{DueOrAhead, groups, rows, wired};
use lists::refusal::Refusal;
use table::lent::Table;
use table::wiring::Wiring;
use table::{Distance, Station, sizes};

// Here and in the turn's scan row, station and distance stay parameters of their own: the public functions take any row, also one of no table.

// Whether the row leaves station x not suspected. Past the row's end a station is absent.
#[tactic(auto, unfolding(crate::specs::Tests::unsuspected))]
pub fn is_unsuspected(row: &[u8], x: Station) -> bool
    ensures { result ≡ unsuspected row.now x.0 }
{
    row.get(x.0 as usize).copied().unwrap_or(1) == 0
}

// The first station that the row does not suspect in the group of j at the level of distance m.
// A plain loop, faster than a chain: the run goes through it.
fn first_unsuspected(row: &[u8], j: Station, m: Distance) -> Option<Station>
    ensures { option_map (λ x. x.0) result ≡ first (unsuspected row.now) j.0 (level m.0) }
{
    if m.0 == 0 {
        return None;
    }
    let w = groups::width_of(sizes::level_of(m));
    for k in 0..w {
        let x = groups::station_at(j, Distance(w + k));
        if is_unsuspected(row, x) {
            return Some(x);
        }
    }
    None
}

// Whether a station stands at distance m from i, by the length of i's row.
pub fn stands(row: &[u8], i: Station, m: Distance) -> bool
    ensures { result ≡ stands row.now i.0 m.0 }
{
    let j = groups::station_at(i, m);
    let at = j.0 as usize;
    at < row.len()
}

// Whether distance m is due for i, by i's row, or who is first instead; i itself where nobody stands or nobody is first. One function, since drives
// are slower where the part behind the first test is a call of its own.
#[tactic(auto, using(crate::proofs::DueLaws::answer_absent, crate::proofs::DueLaws::answer_here))]
pub fn due_or_ahead(row: &[u8], i: Station, m: Distance) -> DueOrAhead
    ensures { answer_value result ≡ answer row.now i.0 m.0 }
{
    if !stands(row, i, m) {
        return DueOrAhead::Ahead(i);
    }
    match first_unsuspected(row, groups::station_at(i, m), m) {
        Some(x) => answer_of(i, x),
        None => DueOrAhead::Ahead(i),
    }
}

// What is answered to i where x is first.
fn answer_of(i: Station, x: Station) -> DueOrAhead
    ensures { answer_value result ≡ answer_of i.0 (Some x.0) }
{
    if x == i {
        DueOrAhead::Due
    } else {
        DueOrAhead::Ahead(x)
    }
}

// m with its digits below its lowest 1 all 1; 0 for 0. Whoever stands before a station in the group at distance m does so at every distance from m to
// this one. The scan of a turn, which never asks it of 0, has that part for itself.
pub fn block_end(m: Distance) -> Distance
    ensures { result.0 ≡ block_end m.0 }
{
    if m.0 == 0 {
        return m;
    }
    wired::block_end(m)
}

// The assignment of live station i: for each other station, by ascending distance, the distance, and 255 if it is due or else the one ahead; and
// how many are due.
#[tactic(auto, using(crate::proofs::Refusals::assignment_ok), unfolding(crate::specs::Calls::assignment_answer, crate::specs::Calls::assignment_after))]
pub fn assignment(n: usize, table: &[u8], i: Station, list: &mut [u8]) -> Result<u8, Refusal>
    ensures count_or_refusal { result ≡ assignment_answer n table.now i.0 (length list.old) }
    ensures list_after { list.new ≡ assignment_after n table.now i.0 list.old }
{
    let lent = check_assignment(n, table, i, list.len())?;
    Ok(write_entries(&lent, i, list))
}

// Refusals 1 to 4, 9, 10, 13.
#[tactic(auto, using(crate::proofs::Refusals::checked_ok, crate::proofs::Refusals::station_ok), unfolding(crate::specs::Calls::assignment_check))]
fn check_assignment(n: usize, table: &[u8], i: Station, len: usize) -> Result<Table<'_>, Refusal>
    ensures check { result_map_both (λ t. tt) (λ r. r) result
        ≡ assignment_check n table.now i.0 len }
    ensures same_size { IfOk result (λ t. t.n ≡ n) }
    ensures same_bytes { IfOk result (λ t. t.bytes.now ≡ table.now) }
{
    let lent = Table::checked(Wiring::Cube, n, table)?;
    rows::check_station(&lent, i)?;
    if !lent.is_live(i) {
        return Err(Refusal::NotLive);
    }
    if len != 2 * (n - 1) {
        return Err(Refusal::ListLength);
    }
    Ok(lent)
}

// Writes the entries of i, by its row; answers how many are due.
fn write_entries(table: &Table, i: Station, list: &mut [u8]) -> u8
    requires station { i.0 < table.now.n }
    requires list_len { length list.old + 2 ≡ 2 * table.now.n }
    ensures due_counted { let n = table.now.n in
        result ≡ length (due_distances (row n table.now.bytes.now i.0) i.0 n) }
    ensures list_after { let n = table.now.n in
        list.new ≡ assignment_entries (row n table.now.bytes.now i.0) i.0 (other_distances n i.0) }
{
    let row = table.row(i);
    let end = sizes::distances(table.n) as u8;
    let others = (1..end).filter(|m| stands(row, i, Distance(*m)));
    let mut due = 0;
    // By places: of what is written through `chunks_exact_mut` no proof knows anything afterwards.
    for (k, m) in others.enumerate() {
        let answer = due_or_ahead(row, i, Distance(m));
        list[2 * k] = m;
        list[2 * k + 1] = answer.byte();
        due += u8::from(answer.is_due());
    }
    due
}
