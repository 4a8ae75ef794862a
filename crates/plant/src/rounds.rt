// Closing a round.
ghost use Rattle.std.specs.Prelude.{◌≡◌, ◌<◌};
ghost use Rattle.table.specs.Rules.{round_over};
ghost use Rattle.table.specs.Lent.{IsSameLoan};
ghost use Rattle.plant.specs.Round.{rounds_after, reset_line, reset_lines, after_round};

use table::lent::{Table, TableMut};
use table::{Station, cells};

// Closes the round if a station is live and all live ones are finished; answers whether it closed. i is the station of the entry.
#[tactic(auto, unfolding(crate::specs::Round::after_round))]
pub(crate) fn close_round(table: &mut TableMut, i: Station) -> bool
    requires { i.0 < table.old.n }
    ensures is_over { result ≡ round_over table.old.n table.old.bytes.now }
    ensures same_loan { IsSameLoan table.old table.new }
    ensures round_closed { table.new.bytes.now ≡ after_round table.old.n table.old.bytes.now }
{
    let over = round_over(&table.read(), i);
    if over {
        reset_lines(table);
    }
    over
}

// Whether a station is live and all live ones are finished. i is looked at first, since most often it is live and has not finished.
#[tactic(auto, using(table::proofs::Accepting::rounds))]
fn round_over(table: &Table, i: Station) -> bool
    requires { i.0 < table.now.n }
    ensures { result ≡ round_over table.now.n table.now.bytes.now }
{
    table.finished_if_live(i) && table.is_round_over()
}

// Every line, live or not, begins a new round.
fn reset_lines(table: &mut TableMut)
    ensures same_loan { IsSameLoan table.old table.new }
    ensures lines_reset { table.new.bytes.now ≡ reset_lines table.old.n table.old.bytes.now }
{
    for i in 0..table.n {
        reset_line(table, Station(i));
    }
}

// Next distance 1, finished 0, tests 0; byte 5 as `rounds_after` gives it.
#[tactic(auto, unfolding(crate::specs::Round::reset_line))]
fn reset_line(table: &mut TableMut, i: Station)
    requires { i.0 < table.old.n }
    ensures same_loan { IsSameLoan table.old table.new }
    ensures line_reset { table.new.bytes.now ≡ reset_line table.old.n i.0 table.old.bytes.now }
{
    let ago = rounds_after(&table.read(), i);
    table.put(i, cells::NEXT, 1);
    table.put(i, cells::FINISHED, 0);
    table.put(i, cells::TESTS, 0);
    table.put(i, cells::ROUNDS_AGO, ago);
}

// Byte 5 of line i after a closing: one round more where i is not live, 255 at most.
#[tactic(auto, unfolding(crate::specs::Round::rounds_after))]
fn rounds_after(table: &Table, i: Station) -> u8
    requires { i.0 < table.now.n }
    ensures { result ≡ rounds_after table.now.n table.now.bytes.now i.0 }
{
    let ago = table.get(i, cells::ROUNDS_AGO);
    if table.is_live(i) {
        return ago;
    }
    ago.saturating_add(1)
}
