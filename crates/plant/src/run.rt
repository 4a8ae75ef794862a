// The run.
ghost use Rattle.std.specs.Prelude.{◌≡◌, length, IfOk};
ghost use Rattle.std.specs.Result.{result_map_both};
ghost use Rattle.table.specs.Lent.{IsSameLoan};
ghost use Rattle.plant.specs.Entry.{state_with};
ghost use Rattle.plant.specs.Run.{entries, go_on, start_check, run_result, run};

use crate::{Ran, Tally, entry};
use lists::refusal::Refusal;
use table::Station;
use table::lent::{Table, TableMut};
use table::wiring::Wiring;

// Carries out a schedule on a table and a tally and fills the sheet, four bytes for each entry taken. A run refused at its start changes
// no byte; one stopped at an entry keeps the work of the entries before it and no other.
pub fn run(
    wiring: Wiring,
    n: usize,
    table: &mut [u8],
    tally: Tally,
    schedule: &[u8],
    sheet: &mut [u8],
) -> Ran
    ensures { run_result result table.new sheet.new
        ≡ run wiring n (state_with table.old tally) schedule.now sheet.old }
{
    // By hand and not by `?`, here and in `go_on`: the answer is no Result, since a run that is stopped keeps what it did.
    let (n, end) = match check_start(wiring, n, table, schedule.len(), sheet.len()) {
        Ok(lent) => (lent.n, lent.end),
        Err(refusal) => {
            return Ran {
                taken: 0,
                tally,
                stopped: Some(refusal),
            };
        }
    };
    let mut lent = TableMut {
        wiring,
        n,
        end,
        bytes: table,
    };
    go_on(&mut lent, tally, schedule, sheet)
}

// Refusals 1 to 6; answers the checked table.
#[tactic(auto, unfolding(crate::specs::Run::start_check))]
fn check_start(
    wiring: Wiring,
    n: usize,
    table: &[u8],
    schedule: usize,
    sheet: usize,
) -> Result<Table<'_>, Refusal>
    ensures check { result_map_both (λ t. tt) (λ r. r) result
        ≡ start_check wiring n table.now schedule sheet }
    ensures same_wiring { IfOk result (λ t. t.wiring ≡ wiring) }
    ensures same_size { IfOk result (λ t. t.n ≡ n) }
    ensures same_bytes { IfOk result (λ t. t.bytes.now ≡ table.now) }
{
    let lent = Table::checked(wiring, n, table)?;
    if schedule % 2 == 1 {
        return Err(Refusal::ScheduleLength);
    }
    if schedule.checked_mul(2) != Some(sheet) {
        return Err(Refusal::SheetLength);
    }
    Ok(lent)
}

// Takes the entries in order. `single` uses it too, so that an entry is taken in one place only, which the compiler then puts in line.
pub(crate) fn go_on(table: &mut TableMut, tally: Tally, schedule: &[u8], sheet: &mut [u8]) -> Ran
    requires { start_check table.old.wiring table.old.n table.old.bytes.now (length schedule.now) (length sheet.old)
        ≡ Ok tt }
    ensures same_loan { IsSameLoan table.old table.new }
    ensures run { let s = state_with table.old.bytes.now tally in
        run_result result table.new.bytes.now sheet.new
        ≡ go_on table.old.wiring table.old.n 0 s sheet.old (entries schedule.now) }
{
    // A table of its own, whose size and place stay in registers: behind the reference they are read again after each byte that is written.
    let bytes = &mut *table.bytes;
    let mut lent = TableMut {
        wiring: table.wiring,
        n: table.n,
        end: table.end,
        bytes,
    };
    let mut ran = Ran {
        taken: 0,
        tally,
        stopped: None,
    };
    let (entries, _) = schedule.as_chunks::<2>();
    for &[kind, station] in entries {
        let entry = match entry::check_entry(&lent.read(), ran.tally, kind, Station(station)) {
            Ok(entry) => entry,
            Err(refusal) => {
                return Ran {
                    stopped: Some(refusal),
                    ..ran
                };
            }
        };
        let a = 4 * ran.taken;
        let e = a + 4;
        ran.tally = entry::take_entry(&mut lent, ran.tally, entry, &mut sheet[a..e]);
        ran.taken += 1;
    }
    ran
}
