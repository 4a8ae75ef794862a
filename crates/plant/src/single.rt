// What the crate `granter` uses of an entry. It has checked the table and chosen a station that may take a turn: so `take_turn` has a
// `requires`.
ghost use Rattle.std.specs.Prelude.{◌≡◌};
ghost use Rattle.table.specs.Lent.{IsSameLoan};
ghost use Rattle.table.specs.Rules.{table_check};
ghost use Rattle.plant.specs.Turn.{kind_turn};
ghost use Rattle.plant.specs.Entry.{state_with, entry_of, entry_check, after};

use crate::entry::Entry;
use crate::kind::Kind;
use crate::{Tally, run};
use table::Station;
use table::lent::TableMut;

// A turn of kind 1 of station i, with no line of a sheet: the rest of a run that has this one entry. The answer is the tally after it.
pub fn take_turn(table: &mut TableMut, tally: Tally, i: Station) -> Tally
    requires table_obeys { table_check table.old.wiring table.old.n table.old.bytes.now ≡ Ok tt }
    requires turn_taken { entry_check table.old.n
        (state_with table.old.bytes.now tally) (entry_of kind_turn i.0) ≡ Ok tt }
    ensures same_loan { IsSameLoan table.old table.new }
    ensures state_after { state_with table.new.bytes.now result
        ≡ after table.old.wiring table.old.n (state_with table.old.bytes.now tally) (entry_of kind_turn i.0) }
{
    let entry = Entry {
        kind: Kind::Turn,
        station: i,
    };
    let mut line = [0u8; 4];
    let ran = run::go_on(table, tally, &entry.bytes(), &mut line);
    ran.tally
}
