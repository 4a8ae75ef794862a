// Computes examples of grants and drives: a round of eight boards, grant by grant and as one drive, and drives that stop early. What it writes is
// compared with the file `stdout`, which has what the rules give by hand and by the simulator.

use crate::lengths::{EIGHT, TWO};
use granter::grant::NO_GRANT;
use granter::{Driven, drive, grant};
use lists::refusal;
use plant::entry::Entry;
use plant::kind::Kind;
use plant::{Tally, run};
use table::lent::TableMut;
use table::wiring::Wiring;
use table::{Station, cells, fresh};

// What one print cannot write is left out, and the next is tried all the same.
pub fn show(rt: &impl Print) {
    eight_boards(rt);
    four_crashed(rt);
    rest_of_a_round(rt);
    top_tally(rt);
    nobody_left(rt);
    last_numbers(rt);
}

// Eight boards, none dead.
fn eight_boards(rt: &impl Print) {
    let mut by_turns = [0u8; EIGHT];
    let mut driven = [0u8; EIGHT];
    let _ = fresh::fresh_table(8, &mut by_turns);
    let _ = fresh::fresh_table(8, &mut driven);
    both_ways(rt, &mut by_turns, &mut driven);
}

// Eight boards, of which board 4 has crashed.
fn four_crashed(rt: &impl Print) {
    let mut by_turns = [0u8; EIGHT];
    let mut driven = [0u8; EIGHT];
    let _ = fresh::fresh_table(8, &mut by_turns);
    let _ = fresh::fresh_table(8, &mut driven);
    entry_of(rt, &mut by_turns, Tally::default(), Kind::Crash, 4);
    entry_of(rt, &mut driven, Tally::default(), Kind::Crash, 4);
    both_ways(rt, &mut by_turns, &mut driven);
}

// A round on two tables of eight that are the same: turn by turn on the one, a line for each turn and then the tally, and as one drive on the
// other; then whether both tables are still the same.
fn both_ways(rt: &impl Print, by_turns: &mut [u8], driven: &mut [u8]) {
    tally_line(rt, granted_round(rt, by_turns));
    drive_line(
        rt,
        drive::drive(Wiring::Cube, 8, driven, Tally::default(), NO_GRANT),
    );
    tables_line(rt, by_turns, driven);
}

fn tally_line(rt: &impl Print, tally: Tally) {
    let _ = println!(rt; "rounds {} tests {}", tally.rounds, tally.tests);
}

// Whether two tables hold the same bytes.
fn tables_line(rt: &impl Print, first: &[u8], second: &[u8]) {
    if first == second {
        let _ = println!(rt; "the same table");
    }
}

// Grant and turn on a table of eight, a line for each, until the round closes or a grant is refused.
fn granted_round(rt: &impl Print, table: &mut [u8]) -> Tally {
    let mut tally = Tally::default();
    let mut last = NO_GRANT;
    for _ in 0..64 {
        if tally.rounds != 0 {
            return tally;
        }
        let Ok(to) = grant::grant(Wiring::Cube, 8, table, last) else {
            return tally;
        };
        last = to.0 as usize;
        tally = entry_of(rt, table, tally, Kind::Turn, to.0);
    }
    tally
}

// Eight boards: board 5 takes a turn, and the rest of the round is driven.
fn rest_of_a_round(rt: &impl Print) {
    let mut table = [0u8; EIGHT];
    let _ = fresh::fresh_table(8, &mut table);
    let tally = entry_of(rt, &mut table, Tally::default(), Kind::Turn, 5);
    drive_line(
        rt,
        drive::drive(Wiring::Cube, 8, &mut table, tally, NO_GRANT),
    );
}

// One entry on a table of eight; of a turn, its line of the sheet is printed. Table and tally stay two values, as the calls have them.
fn entry_of(rt: &impl Print, table: &mut [u8], tally: Tally, kind: Kind, i: u8) -> Tally {
    let station = Station(i);
    let mut line = [0u8; 4];
    let ran = run::run(
        Wiring::Cube,
        8,
        table,
        tally,
        &Entry { kind, station }.bytes(),
        &mut line,
    );
    if kind == Kind::Turn {
        let [station, tested, outcome, status] = line;
        let _ = println!(rt; "{station} {tested} {outcome} {status}");
    }
    ran.tally
}

// Tests one below the top, tests at the top, and rounds that reach it when the round closes: 7 after one grant, 7 at once, 0.
fn top_tally(rt: &impl Print) {
    two_boards(rt, 0, 4294967294);
    two_boards(rt, 0, 4294967295);
    two_boards(rt, 4294967294, 4294967292);
}

// A drive of two fresh boards, behind so many rounds and tests.
fn two_boards(rt: &impl Print, rounds: u32, tests: u32) {
    let mut table = [0u8; TWO];
    let _ = fresh::fresh_table(2, &mut table);
    let tally = Tally { rounds, tests };
    drive_line(
        rt,
        drive::drive(Wiring::Cube, 2, &mut table, tally, NO_GRANT),
    );
}

// Two boards that suspect one another: 0 tests 1, is told and leaves; 1 tests 0, which is not live, and leaves as alone.
#[tactic(auto, unfolding(table::specs::Table::table_length, table::specs::Sizes::is_size))]
fn nobody_left(rt: &impl Print) {
    let mut table = [0u8; TWO];
    let _ = fresh::fresh_table(2, &mut table);
    let mut lent = TableMut {
        wiring: Wiring::Cube,
        n: 2,
        end: Wiring::Cube.end_byte(2),
        bytes: &mut table,
    };
    lent.put(Station(0), cells::HEAD + 1, 1);
    lent.put(Station(1), cells::HEAD, 1);
    let first = drive::drive(Wiring::Cube, 2, &mut table, Tally::default(), NO_GRANT);
    drive_line(rt, first);
    drive_line(
        rt,
        drive::drive(Wiring::Cube, 2, &mut table, first.tally, 1),
    );
}

// Last numbers of a plant of two: 0, 1 and 255 are taken; 2, 254 and 256 are not.
fn last_numbers(rt: &impl Print) {
    number_line(rt, 0);
    number_line(rt, 1);
    number_line(rt, 2);
    number_line(rt, 254);
    number_line(rt, 255);
    number_line(rt, 256);
}

fn number_line(rt: &impl Print, last: usize) {
    let mut table = [0u8; TWO];
    let _ = fresh::fresh_table(2, &mut table);
    let (number, Station(station)) = refusal::parts(
        grant::grant(Wiring::Cube, 2, &table, last),
        Station(0),
    );
    let _ = println!(rt; "last {last} number {number} station {station}");
}

fn drive_line(rt: &impl Print, driven: Driven) {
    let tally = driven.tally;
    let _ = println!(rt;
        "number {} rounds {} tests {} last {} grants {}",
        plant::stop_refusal(driven.stopped),
        tally.rounds,
        tally.tests,
        driven.last,
        driven.grants
    );
}
