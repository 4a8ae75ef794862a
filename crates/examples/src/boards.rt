// Computes examples of the plant's rules, a plant of eight boards, the published table of groups, and the published counts of messages. What it
// writes is compared with the file `stdout`, which has what the rules give by hand and by the simulator, and what was published (docs/SOURCES.md).

use crate::lengths::{EIGHT, ELEVEN, FOUR, TWO};
use lists::refusal;
use plant::entry::Entry;
use plant::kind::Kind;
use plant::{Ran, Tally, run};
use station::outcome::Outcome;
use station::{due, groups, rows};
use std::ops::ControlFlow;
use table::lent::{Table, TableMut};
use table::wiring::Wiring;
use table::{Level, Station, cells, fresh};

// What one print cannot write is left out, and the next is tried all the same.
pub fn show(rt: &impl Print) {
    published_groups(rt);
    sizes(rt);
    sixty_four(rt);
    eight_boards(rt);
    top_tally(rt);
    published_messages(rt);
    eight_assigned(rt);
    eleven_boards(rt);
    odd_sizes(rt);
    late_turn(rt);
    ring_of_four(rt);
}

// The published table of groups of eight stations. A line for each level, a column for each station.
fn published_groups(rt: &impl Print) {
    group_line(rt, Level(1), 1);
    group_line(rt, Level(2), 2);
    group_line(rt, Level(3), 4);
}

// The groups of stations 0 to 7 at level s, of w members each.
fn group_line(rt: &impl Print, s: Level, w: u8) {
    let _ = print!(rt; "{}", s.0);
    for i in 0..8 {
        group_column(rt, Station(i), s, w);
    }
    line_end(rt);
}

fn line_end(rt: &impl Print) {
    let _ = println!(rt; "");
}

fn group_column(rt: &impl Print, i: Station, s: Level, w: u8) {
    let mut list = [0u8; 4];
    members(rt, 8, i, s, w as usize, &mut list);
}

// The w members of the group of i at level s among n, by way of the front of a list.
fn members(rt: &impl Print, n: usize, i: Station, s: Level, w: usize, list: &mut [u8]) {
    let Some(list) = list.get_mut(..w) else {
        return;
    };
    if groups::group_list(n, i, s, list).is_ok() {
        commas(rt, list);
    }
}

// The bytes, a space before the first and commas before the others.
fn commas(rt: &impl Print, list: &[u8]) {
    for (k, byte) in list.iter().enumerate() {
        let separator = if k == 0 { " " } else { "," };
        let _ = print!(rt; "{separator}{byte}");
    }
}

// Sizes 2, 3 and 64 are taken; 0, 1, 65 and 128 get refusal 1. Two stations have a table of 16 bytes, so that 15 and 17 get 2; 64 stations have
// one of 4,480 bytes. The lengths with heads of four bytes, 12 and 4,352, get 2.
fn sizes(rt: &impl Print) {
    size_line(rt, 0, 0);
    size_line(rt, 1, 7);
    size_line(rt, 3, 27);
    size_line(rt, 65, 4480);
    size_line(rt, 128, 4480);
    size_line(rt, 2, 16);
    size_line(rt, 2, 15);
    size_line(rt, 2, 17);
    size_line(rt, 2, 12);
    size_line(rt, 64, 4480);
    size_line(rt, 64, 4479);
    size_line(rt, 64, 4352);
}

// The number that a fresh table of a size and a length gets.
fn size_line(rt: &impl Print, n: usize, len: usize) {
    let mut space = [0u8; cells::GREATEST_TABLE];
    let Some(table) = space.get_mut(..len) else {
        return;
    };
    let number = refusal::number_of(fresh::fresh_table(n, table));
    let _ = println!(rt; "size {n} bytes {len} number {number}");
}

// 64 stations, none dead: 384 tests a round.
fn sixty_four(rt: &impl Print) {
    let mut table = [0u8; cells::GREATEST_TABLE];
    let mut plant = Plant::fresh(Wiring::Cube, 64, &mut table);
    plant.round(rt, None);
    tests_line(rt, Tally::default(), plant.tally);
}

// Eight boards. None dead: 24 tests a round, of which board 0 makes three. Board 4 crashes: 23 tests a round once all know it, and
// board 5 tests 0 and 6 besides.
fn eight_boards(rt: &impl Print) {
    let mut table = [0u8; EIGHT];
    let mut plant = Plant::fresh(Wiring::Cube, 8, &mut table);
    plant.round(rt, Some(0));
    tests_line(rt, Tally::default(), plant.tally);
    plant.entry(Kind::Crash, 4);
    plant.round(rt, None);
    let second = plant.tally;
    plant.round(rt, Some(5));
    tests_line(rt, second, plant.tally);
}

// Tests at 4,294,967,294: a turn that makes a test is taken, and the next entry gets 7.
fn top_tally(rt: &impl Print) {
    let mut table = [0u8; TWO];
    let mut plant = Plant::fresh(Wiring::Cube, 2, &mut table);
    plant.tally.tests = 4294967294;
    run_line(rt, plant.turns_of_0_and_1().0);
}

// The published counts of messages, on the cube and on the ring: those of d·d rounds with nobody dead, two a test.
fn published_messages(rt: &impl Print) {
    messages_lines(rt, "", Wiring::Cube);
    messages_lines(rt, "ring of ", Wiring::Ring);
}

fn messages_lines(rt: &impl Print, what: &str, wiring: Wiring) {
    messages_line(rt, what, wiring, 4, 4);
    messages_line(rt, what, wiring, 8, 9);
    messages_line(rt, what, wiring, 16, 16);
    messages_line(rt, what, wiring, 32, 25);
    messages_line(rt, what, wiring, 64, 36);
}

fn messages_line(rt: &impl Print, what: &str, wiring: Wiring, n: u8, rounds: u8) {
    let tally = fresh_rounds(rt, wiring, n, rounds);
    let _ = println!(rt;
        "{what}{n} boards rounds {} messages {}",
        tally.rounds,
        2 * tally.tests as u64
    );
}

// Eleven boards: groups (10, level 1), (10, level 2) and (2, level 4); the assignment of station 10, nothing suspected; and the tests
// of a round once all know that board 4 is dead.
fn eleven_boards(rt: &impl Print) {
    eleven_line(rt, 10, Level(1), 0);
    eleven_line(rt, 10, Level(2), 2);
    eleven_line(rt, 2, Level(4), 3);
    let mut table = [0u8; ELEVEN];
    let mut plant = Plant::fresh(Wiring::Cube, 11, &mut table);
    let mut list = [0u8; 20];
    assignment_line(rt, 11, plant.table, 10, &mut list);
    plant.entry(Kind::Crash, 4);
    plant.rounds(rt, 4);
    let known = plant.tally;
    plant.round(rt, None);
    tests_line(rt, known, plant.tally);
}

// Eight boards: the assignment of station 5, nothing suspected, and where it suspects 4.
#[tactic(auto, unfolding(table::specs::Table::table_length, table::specs::Sizes::is_size))]
fn eight_assigned(rt: &impl Print) {
    let mut table = [0u8; EIGHT];
    let _ = fresh::fresh_table(8, &mut table);
    let mut list = [0u8; 14];
    assignment_line(rt, 8, &table, 5, &mut list);
    let mut lent = TableMut {
        wiring: Wiring::Cube,
        n: 8,
        end: Wiring::Cube.end_byte(8),
        bytes: &mut table,
    };
    lent.put(Station(5), cells::HEAD + 4, 1);
    assignment_line(rt, 8, &table, 5, &mut list);
}

// The entries of an assignment, and how many of them are due.
fn assignment_line(rt: &impl Print, n: usize, table: &[u8], i: u8, list: &mut [u8]) {
    let count = due::assignment(n, table, Station(i), list).unwrap_or(0);
    let _ = print!(rt; "{i} assigned");
    commas(rt, list);
    let _ = println!(rt; " due {count}");
}

// The w members of the group of i at level s among eleven.
fn eleven_line(rt: &impl Print, i: u8, s: Level, w: usize) {
    let mut list = [0u8; 4];
    let _ = print!(rt; "{i} level {}:", s.0);
    members(rt, 11, Station(i), s, w, &mut list);
    line_end(rt);
}

// The tests of a round with nobody dead, at sizes that are no power of two.
fn odd_sizes(rt: &impl Print) {
    round_line(rt, 3);
    round_line(rt, 5);
    round_line(rt, 11);
    round_line(rt, 19);
    round_line(rt, 63);
}

fn round_line(rt: &impl Print, n: u8) {
    let tally = fresh_rounds(rt, Wiring::Cube, n, 1);
    let _ = println!(rt; "{n} boards rounds {} tests {}", tally.rounds, tally.tests);
}

// Four boards: 1, 2 and 3 take their passes. The reply of 1 to 0's first test comes late; 0 tests 2 and 3 and finishes its pass, which
// closes the round. In the next round 0 tests 1 again: 1 is told and leaves, and its own turn is refused. Its line names 0.
#[tactic(auto, unfolding(table::specs::Table::table_length, table::specs::Sizes::is_size))]
fn late_turn(rt: &impl Print) {
    let mut table = [0u8; FOUR];
    let mut plant = Plant::fresh(Wiring::Cube, 4, &mut table);
    plant.pass(rt, 1, false);
    plant.pass(rt, 2, false);
    plant.pass(rt, 3, false);
    plant.entry(Kind::LateTurn, 0);
    plant.pass(rt, 0, true);
    tests_line(rt, Tally::default(), plant.tally);
    let (ran, sheet) = plant.turns_of_0_and_1();
    sheet_line(rt, &sheet[0..4]);
    run_line(rt, ran);
    let lent = Table {
        wiring: Wiring::Cube,
        n: 4,
        end: Wiring::Cube.end_byte(4),
        bytes: &table,
    };
    let told_by = lent.get(Station(1), cells::TOLD_BY);
    let rounds_ago = lent.get(Station(1), cells::ROUNDS_AGO);
    let _ = println!(rt; "1 told by {told_by} rounds ago {rounds_ago}");
}

// Four boards on the ring, board 1 dead. Board 0 tests 1, which does not reply, exchanges with 2, and finishes its pass; 2 exchanges with 3, and
// 3 with 0. So the round has four tests, and after it each live board suspects 1. There is no board 4: its row is the empty part.
fn ring_of_four(rt: &impl Print) {
    let mut table = [0u8; FOUR];
    let mut plant = Plant::fresh(Wiring::Ring, 4, &mut table);
    plant.entry(Kind::Crash, 1);
    plant.sheet_line_of_0(rt);
    plant.sheet_line_of_0(rt);
    plant.sheet_line_of_0(rt);
    plant.pass(rt, 2, true);
    plant.pass(rt, 3, true);
    tests_line(rt, Tally::default(), plant.tally);
    row_line(rt, &table, 0);
    row_line(rt, &table, 2);
    row_line(rt, &table, 3);
    row_line(rt, &table, 4);
}

// The row of a station of the ring of four.
fn row_line(rt: &impl Print, table: &[u8], i: u8) {
    let _ = print!(rt; "{i} row");
    commas(rt, rows::row(Wiring::Ring, 4, table, Station(i)));
    line_end(rt);
}

// The tally of so many rounds of n boards, from none.
fn fresh_rounds(rt: &impl Print, wiring: Wiring, n: u8, rounds: u8) -> Tally {
    let mut space = [0u8; cells::GREATEST_TABLE];
    let Some(table) = space.get_mut(..cells::table_length(n)) else {
        return Tally::default();
    };
    let mut plant = Plant::fresh(wiring, n, table);
    plant.rounds(rt, rounds);
    plant.tally
}

// A plant that runs work on: its wiring, its size, its table and its tally.
#[derive(Drop)]
struct Plant<'a> {
    wiring: Wiring,
    n: u8,
    table: &'a mut [u8],
    tally: Tally,
}

impl<'a> Plant<'a> {
    // A plant that begins: the table is made fresh.
    fn fresh(wiring: Wiring, n: u8, table: &'a mut [u8]) -> Plant<'a> {
        let _ = fresh::fresh_table(n as usize, table);
        Plant {
            wiring,
            n,
            table,
            tally: Tally::default(),
        }
    }

    // So many rounds.
    fn rounds(&mut self, rt: &impl Print, rounds: u8) {
        for _ in 0..rounds {
            self.round(rt, None);
        }
    }

    // A round: each board takes its turns until its pass is finished. The tests of the board that is shown are printed.
    fn round(&mut self, rt: &impl Print, shown: Option<u8>) {
        for i in 0..self.n {
            self.pass(rt, i, shown == Some(i));
        }
    }

    // The turns of board i until its pass is finished or a turn is refused.
    fn pass(&mut self, rt: &impl Print, i: u8, shown: bool) {
        for _ in 0..self.n {
            if self.turn(rt, i, shown).is_break() {
                return;
            }
        }
    }

    // A turn of board i. No other follows where the pass is finished or the turn was refused.
    fn turn(&mut self, rt: &impl Print, i: u8, shown: bool) -> ControlFlow<()> {
        let (ran, [_, tested, outcome, _]) = self.entry(Kind::Turn, i);
        if ran.stopped.is_some() || outcome == Outcome::PassFinished.outcome_byte() {
            return ControlFlow::Break(());
        }
        if shown {
            let _ = println!(rt; "{i} tests {tested}");
        }
        ControlFlow::Continue(())
    }

    // One entry, and its line of the sheet.
    fn entry(&mut self, kind: Kind, i: u8) -> (Ran, [u8; 4]) {
        let station = Station(i);
        let mut line = [0u8; 4];
        let ran = self.run(&Entry { kind, station }.bytes(), &mut line);
        (ran, line)
    }

    // A turn of board 0 and one of board 1, and their lines of the sheet.
    fn turns_of_0_and_1(&mut self) -> (Ran, [u8; 8]) {
        let kind = Kind::Turn;
        let turn = |station| Entry { kind, station }.bytes();
        let mut sheet = [0u8; 8];
        let ran = self.run(
            [turn(Station(0)), turn(Station(1))].as_flattened(),
            &mut sheet,
        );
        (ran, sheet)
    }

    // A turn of board 0: its line of the sheet is printed.
    fn sheet_line_of_0(&mut self, rt: &impl Print) {
        let (_, line) = self.entry(Kind::Turn, 0);
        sheet_line(rt, &line);
    }

    // A run of a schedule.
    fn run(&mut self, schedule: &[u8], sheet: &mut [u8]) -> Ran {
        let ran = run::run(
            self.wiring,
            self.n as usize,
            self.table,
            self.tally,
            schedule,
            sheet,
        );
        self.tally = ran.tally;
        ran
    }
}

fn sheet_line(rt: &impl Print, line: &[u8]) {
    let _ = print!(rt; "sheet");
    commas(rt, line);
    line_end(rt);
}

// The tests and the rounds from one tally to a later one.
fn tests_line(rt: &impl Print, before: Tally, after: Tally) {
    let _ = println!(rt;
        "rounds {} tests {}",
        after.rounds.wrapping_sub(before.rounds),
        after.tests.wrapping_sub(before.tests)
    );
}

fn run_line(rt: &impl Print, ran: Ran) {
    let _ = println!(rt;
        "number {} taken {} tests {}",
        plant::stop_refusal(ran.stopped),
        ran.taken,
        ran.tally.tests
    );
}
