// One entry of a schedule.
ghost use Rattle.std.specs.Prelude.{◌≡◌, ◌<◌, length, IfOk};
ghost use Rattle.std.specs.Result.{result_map_both};
ghost use Rattle.table.specs.Lent.{IsSameLoan};
ghost use Rattle.table.specs.Rules.{table_check};
ghost use Rattle.station.specs.Outcome.{tested_byte, outcome_byte};
ghost use Rattle.plant.specs.Entry.{state_with, entry_of, entry_known, entry_check, shows_test, acted, after, tested_of, outcome_of};
ghost use Rattle.plant.specs.Entry.{sheet_line};

use crate::kind::Kind;
use crate::{Tally, rounds, steps};
use lists::refusal::Refusal;
use station::outcome::Outcome;
use table::lent::{Table, TableMut};
use table::status::Status;
use table::{Station, cells};

// An entry of a schedule, of a known kind: what happens, and to which station.
#[derive(Clone, Copy, Debug, PartialEq, Eq)]
pub struct Entry {
    pub kind: Kind,
    pub station: Station,
}

impl Entry {
    ghost use Rattle.std.specs.Prelude.{◌≡◌, ◌∷◌, []};
    ghost use Rattle.plant.specs.Kind.{kind_byte};

    // Its two bytes in a schedule.
    pub fn bytes(self) -> [u8; 2]
        ensures { result ≡ kind_byte self.kind ∷ self.station.0 ∷ [] }
    {
        [u8::from(self.kind), self.station.0]
    }
}

// The entry that two bytes of a schedule stand for: refusals 7 to 11.
#[tactic(auto, unfolding(crate::specs::Entry::entry_check))]
pub(crate) fn check_entry(
    table: &Table,
    tally: Tally,
    kind: u8,
    station: Station,
) -> Result<Entry, Refusal>
    ensures check { result_map_both (λ e. tt) (λ r. r) result
        ≡ entry_check table.now.n (state_with table.now.bytes.now tally) (entry_of kind station.0) }
    ensures entry { IfOk result (λ e. entry_known e ≡ entry_of kind station.0) }
{
    if tally.is_full() {
        return Err(Refusal::TallyFull);
    }
    let kind = Kind::try_from(kind)?;
    if table.n <= station.0 {
        return Err(Refusal::NoSuchStation);
    }
    if !table.is_live(station) {
        return Err(Refusal::NotLive);
    }
    if (kind != Kind::Crash) & table.is_finished(station) {
        return Err(Refusal::PassFinished);
    }
    Ok(Entry { kind, station })
}

// An entry that is not refused: what it does, and its line of the run sheet. The answer is the tally after it.
// Table and tally stay two parameters: the tally is a value that each entry answers anew, and a struct of both would be taken apart there.
pub(crate) fn take_entry(table: &mut TableMut, tally: Tally, entry: Entry, line: &mut [u8]) -> Tally
    requires table_obeys { table_check table.old.wiring table.old.n table.old.bytes.now ≡ Ok tt }
    requires entry_taken { entry_check table.old.n
        (state_with table.old.bytes.now tally) (entry_known entry) ≡ Ok tt }
    requires line_length { length line.old ≡ 4 }
    ensures same_loan { IsSameLoan table.old table.new }
    ensures state_after { state_with table.new.bytes.now result
        ≡ after table.old.wiring table.old.n (state_with table.old.bytes.now tally) (entry_known entry) }
    ensures line_after { line.new
        ≡ sheet_line table.old.wiring table.old.n (state_with table.old.bytes.now tally) (entry_known entry) }
{
    let station = entry.station;
    let done = act(table, entry);
    let tested = done.tested_byte();
    let outcome = done.outcome_byte();
    let over = rounds::close_round(table, station);
    let status = table.read().get(station, cells::STATUS);
    // By index, which is faster here than a copy of four bytes.
    line[0] = station.0;
    line[1] = tested;
    line[2] = outcome;
    line[3] = status;
    Tally {
        rounds: tally.rounds + u32::from(over),
        tests: tally.tests + u32::from(made_test(done)),
    }
}

// Whether the entry made a test.
fn made_test(done: Outcome) -> bool
    ensures { result ≡ shows_test (outcome_byte done) }
{
    !matches!(done, Outcome::PassFinished | Outcome::Crashed)
}

// A crash or a turn, before the round is looked at.
#[tactic(auto, unfolding(crate::specs::Entry::acted, crate::specs::Entry::tested_of, crate::specs::Entry::outcome_of, crate::specs::Turn::crash))]
fn act(table: &mut TableMut, entry: Entry) -> Outcome
    requires table_obeys { table_check table.old.wiring table.old.n table.old.bytes.now ≡ Ok tt }
    requires station_below { entry.station.0 < table.old.n }
    ensures tested_station { tested_byte result
        ≡ tested_of table.old.wiring table.old.n table.old.bytes.now (entry_known entry) }
    ensures outcome_number { outcome_byte result
        ≡ outcome_of table.old.wiring table.old.n table.old.bytes.now (entry_known entry) }
    ensures same_loan { IsSameLoan table.old table.new }
    ensures entry_acted { table.new.bytes.now
        ≡ acted table.old.wiring table.old.n table.old.bytes.now (entry_known entry) }
{
    if entry.kind == Kind::Crash {
        table.set_status(entry.station, Status::Crashed);
        return Outcome::Crashed;
    }
    steps::take_turn(table, entry.kind, entry.station)
}
