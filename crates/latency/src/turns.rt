// The figures of the commissioning sheet, on the cube (specs/Turns.antt): after how many turns one more dead board is known everywhere. Of a
// driven plant each grant is a turn. Size and row stand side by side, as in `slots`.

ghost use Rattle.std.specs.Prelude.{◌≡◌, ◌≤◌, ◌*◌};
ghost use Rattle.table.specs.Sizes.{dimension};
ghost use Rattle.detection.specs.Claim.{worst_latency};
ghost use Rattle.latency.specs.Turns.{turns_of, turns_by_row, known_with, most_until_known, FiguresCover};

use station::{due, rows};
use table::{Station, sizes};

// What is claimed of turns from a crash on holds of these figures.
pub fn figures_cover()
    ensures { FiguresCover }
{}

// How many turns there are at most from the death of one more of n boards, whichever it is, until all live boards know it; the row suspects those
// that are dead already. The row is as before afterwards.
pub fn most_until_known(n: u8, row: &mut [u8]) -> u32
    ensures most { result ≡ most_until_known n row.old }
    ensures row_unchanged { row.new ≡ row.old }
{
    let mut most: u32 = 0;
    // Not a chain, as in `slots`: of a closure that marks the row no proof knows what it answers.
    for j in 0..n {
        most = most.max(known_with(n, row, Station(j)));
    }
    most
}

// The same where board j dies; 0 where it is dead already. The row is as before afterwards.
#[tactic(auto, unfolding(crate::specs::Turns::known_with))]
fn known_with(n: u8, row: &mut [u8], j: Station) -> u32
    ensures turns { result ≡ known_with n row.old j.0 }
    ensures row_unchanged { row.new ≡ row.old }
{
    if !due::is_unsuspected(row, j) {
        return 0;
    }
    let at = j.0 as usize;
    let kept = row[at];
    rows::mark_row(row, j);
    let turns = turns_by_row(n, row);
    row[at] = kept;
    (1 + worst_rounds(n)) * turns
}

// In so many rounds all live boards of n know the dead ones.
#[tactic(auto, unfolding(detection::specs::Claim::worst_latency))]
pub fn worst_rounds(n: u8) -> u32
    ensures rounds { result ≡ worst_latency (dimension n) }
    ensures upper_bound { result ≤ 16 }
{
    let d = sizes::dimension_of(n).0 as u32;
    if d < 4 {
        return d;
    }
    4 + (d - 3) * (d - 3) / 2
}

// The turns that the live ones of n boards make in a round, by the row of the dead ones.
pub(crate) fn turns_by_row(n: u8, row: &[u8]) -> u32
    ensures turns { result ≡ turns_by_row n row.now }
    ensures upper_bound { result ≤ 256 * n }
{
    let mut turns: u32 = 0;
    for i in 0..n {
        turns += turns_of(n, row, Station(i));
    }
    turns
}

// The turns of board i in a round: its tests and the one that finishes its pass, if it is live.
#[tactic(auto, unfolding(crate::specs::Turns::turns_of))]
fn turns_of(n: u8, row: &[u8], i: Station) -> u32
    ensures turns { result ≡ turns_of n row.now i.0 }
    ensures upper_bound { result ≤ 256 }
{
    if !due::is_unsuspected(row, i) {
        return 0;
    }
    slots::list_tests(n, row, i).len() as u32 + 1
}
