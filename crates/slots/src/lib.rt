// What a row says of a board's tests, that of the commissioning sheet too: which boards it tests, whom it does not test and who stands ahead
// (`untested`), how many tests it makes a round, and the most that one more dead board can make of it, by which its slot on the cable is timed
// (specs/Slots.antt). The law behind the numbers is claimed by the functions of `claims`, which do nothing. Size, row and station stand side by
// side: in the public calls since any row is taken, of the size's length or not, and in the private ones since a struct would borrow the row,
// which `tests_with` marks between two calls.
#![tactic(auto)]

ghost use Rattle.std.specs.Prelude.{◌≡◌, map, true, false};
ghost use Rattle.station.specs.Tests.{due};
ghost use Rattle.slots.specs.Slots.{tested, tests_due, tests_with, most_tests, most_of_boards};

pub mod board;
pub mod claims;
pub mod untested;

use arrayvec::ArrayVec;
use station::{due, groups, rows};
use table::{Distance, Station, sizes};

// Whom i of n stations tests by its row of n bytes, in order. At most 255: any n has at most 256 distances, and 0 is never due.
pub fn list_tests(n: u8, row: &[u8], i: Station) -> ArrayVec<Station, 255>
    ensures { map (λ x. x.0) result.items ≡ tested n row.now i.0 }
{
    let end = sizes::distances(n);
    let mut list = ArrayVec::new();
    for m in 0..end {
        let m = Distance(m as u8);
        if is_due(row, i, m) {
            list.push(groups::station_at(i, m));
        }
    }
    list
}

// How many distances are due for i of n stations, by its row.
fn tests(n: u8, row: &[u8], i: Station) -> u8
    ensures { result ≡ tests_due n row.now i.0 }
{
    let end = sizes::distances(n);
    (0..end)
        .filter(|m| is_due(row, i, Distance(*m as u8)))
        .count() as u8
}

// Whether distance m is due for i, by its row.
fn is_due(row: &[u8], i: Station, m: Distance) -> bool
    ensures { result ≡ due row.now i.0 m.0 }
{
    due::due_or_ahead(row, i, m).is_due()
}

// The most tests of i where its row suspects one station more. The row is as before afterwards.
pub fn most_tests(n: u8, row: &mut [u8], i: Station) -> u8
    ensures most { result ≡ most_tests n row.old i.0 }
    ensures row_unchanged { row.new ≡ row.old }
{
    let mut most: u8 = 0;
    // Not a chain: of a closure that marks the row, and puts back what was there, no proof knows what it answers.
    for j in 0..n {
        most = most.max(tests_with(n, row, i, Station(j)));
    }
    most
}

// The tests of i where its row suspects j too; 0 where j is i. The row is as before afterwards.
fn tests_with(n: u8, row: &mut [u8], i: Station, j: Station) -> u8
    ensures count { result ≡ tests_with n row.old i.0 j.0 }
    ensures row_unchanged { row.new ≡ row.old }
{
    if j == i {
        return 0;
    }
    let at = j.0 as usize;
    if row.len() <= at {
        return tests(n, row, i);
    }
    let kept = row[at];
    rows::mark_row(row, j);
    let count = tests(n, row, i);
    row[at] = kept;
    count
}

// The most tests of any of n boards that all have this row and, if `more`, also suspect any one other board. The row is as before afterwards.
// The flag stays: a public function, whose promise speaks of both values at once.
pub fn most_of_boards(n: u8, row: &mut [u8], more: bool) -> u8
    ensures most { result ≡ most_of_boards n row.old more }
    ensures row_unchanged { row.new ≡ row.old }
{
    if more {
        return most_with_one_more(n, row);
    }
    most_by_row(n, row)
}

// The most tests of any of n boards by the row.
fn most_by_row(n: u8, row: &[u8]) -> u8
    ensures { result ≡ most_of_boards n row.now false }
{
    (0..n).map(|i| tests(n, row, Station(i))).max().unwrap_or(0)
}

// The most tests of any of n boards where the row suspects one station more. The row is as before afterwards.
fn most_with_one_more(n: u8, row: &mut [u8]) -> u8
    ensures most { result ≡ most_of_boards n row.old true }
    ensures row_unchanged { row.new ≡ row.old }
{
    let mut most: u8 = 0;
    // Not a chain, as in `most_tests`.
    for i in 0..n {
        most = most.max(most_tests(n, row, Station(i)));
    }
    most
}
