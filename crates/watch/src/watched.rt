// What comes of an input: it is read, and its schedule is carried out on a fresh table with zero tallies.
ghost use Rattle.std.specs.Prelude.{◌≡◌, ℕ, List, ◌++◌, Ok, true, false, ◌*◌, ◌≤◌, length, IfErr};
ghost use Rattle.table.specs.Sizes.{is_size};
ghost use Rattle.table.specs.Table.{greatest_table, table_length};
ghost use Rattle.table.specs.Fresh.{fresh_after};
ghost use Rattle.plant.specs.Entry.{state_of};
ghost use Rattle.plant.specs.Run.{run_result, run};
ghost use Rattle.input.specs.Input.{lines};
ghost use Rattle.input.specs.Fault.{fault_in};
ghost use Rattle.watch.specs.Watched.{watched_with, carried_out, watched, deciding};

use input::reading::{self, Unread};
use plant::{Ran, Tally, run};
use table::wiring::Wiring;
use table::{cells, fresh, sizes};

// Reads an input and carries its schedule out on a wiring; answers how the run went, or the first unreadable line.
pub fn watch_plant(
    wiring: Wiring,
    input: &[u8],
    schedule: &mut [u8; 8192],
    table: &mut [u8; cells::GREATEST_TABLE],
    sheet: &mut [u8; 16384],
) -> Result<Ran, Unread>
    ensures answer_and_sheet { watched_with result sheet.new
        ≡ watched wiring sheet.old input.now }
    ensures fault { IfErr result (λ u. u.fault ≡ fault_in u.line (lines input.now)) }

    // What follows so many bytes does not matter.
    ensures decided { (rest : List ℕ) → length input.now ≡ deciding
        → watched_with result sheet.new ≡ watched wiring sheet.old (input.now ++ rest) }
{
    let parsed = reading::parse(input, schedule)?;
    let taken = &schedule[..2 * parsed.entries];
    Ok(carry_out(wiring, parsed.size, taken, table, sheet))
}

// Carries a schedule out on the parts of table and sheet that it takes.
fn carry_out(
    wiring: Wiring,
    size: usize,
    schedule: &[u8],
    table: &mut [u8; cells::GREATEST_TABLE],
    sheet: &mut [u8; 16384],
) -> Ran
    requires { 2 * length schedule.now ≤ length sheet.old }
    ensures { watched_with (Ok result) sheet.new ≡ carried_out wiring size schedule.now sheet.old }
{
    let long = table_part(size);
    let filled = 2 * schedule.len();
    run_fresh(
        wiring,
        size,
        schedule,
        &mut table[..long],
        &mut sheet[..filled],
    )
}

// Makes the table fresh and runs the schedule with zero tallies.
fn run_fresh(
    wiring: Wiring,
    size: usize,
    schedule: &[u8],
    table: &mut [u8],
    sheet: &mut [u8],
) -> Ran
    ensures { let start = state_of (fresh_after size table.old) 0 0 in
        run_result result table.new sheet.new ≡ run wiring size start schedule.now sheet.old }
{
    let _ = fresh::fresh_table(size, table);
    run::run(wiring, size, table, Tally::default(), schedule, sheet)
}

// The length of the part of the table that a plant of this size has; 0 for what is no size, which the run refuses: of an Option the caller would
// take 0 for none.
fn table_part(size: usize) -> usize
    ensures of_a_size { is_size size ≡ true → result ≡ table_length size }
    ensures of_no_size { is_size size ≡ false → result ≡ 0 }
    ensures upper_bound { result ≤ greatest_table }
{
    if !sizes::is_size(size) {
        return 0;
    }
    cells::table_length(size as u8)
}
