// Computes examples of the doubt lamp: four boards of which one comes to be suspected and leaves. What it writes is compared with the file
// `stdout`, which has what the rules give by hand.

use crate::lengths::FOUR;
use lamp::Doubt;
use plant::entry::Entry;
use plant::kind::Kind;
use plant::{Tally, run};
use table::wiring::Wiring;
use table::{Station, fresh};

// What one print cannot write is left out, and the next is tried all the same.
pub fn show(rt: &impl Print) {
    let mut table = [0u8; FOUR];
    let _ = fresh::fresh_table(4, &mut table);
    lamp_line(rt, 4, &table);
    // The reply of 1 comes late: 0 suspects it. Then 0 exchanges rows with 2, and with 3.
    entry_of(&mut table, Kind::LateTurn, 0);
    lamp_line(rt, 4, &table);
    entry_of(&mut table, Kind::Turn, 0);
    entry_of(&mut table, Kind::Turn, 0);
    lamp_line(rt, 4, &table);
    // 0 crashes: 2 is now the first that suspects 1.
    entry_of(&mut table, Kind::Crash, 0);
    lamp_line(rt, 4, &table);
    // 2 exchanges rows with 3 and finds 0 dead.
    entry_of(&mut table, Kind::Turn, 2);
    entry_of(&mut table, Kind::Turn, 2);
    lamp_line(rt, 4, &table);
    // 3 exchanges rows with 2, then tests 1 and tells it. Who is left suspects nobody who is live.
    entry_of(&mut table, Kind::Turn, 3);
    entry_of(&mut table, Kind::Turn, 3);
    lamp_line(rt, 4, &table);
    lamp_line(rt, 5, &table);
}

fn entry_of(table: &mut [u8], kind: Kind, i: u8) {
    let station = Station(i);
    let mut line = [0u8; 4];
    let _ = run::run(
        Wiring::Cube,
        4,
        table,
        Tally::default(),
        &Entry { kind, station }.bytes(),
        &mut line,
    );
}

fn lamp_line(rt: &impl Print, n: usize, table: &[u8]) {
    let _ = match lamp::doubt_lamp(Wiring::Cube, n, table) {
        Ok(Some(Doubt { by, of })) => println!(rt; "lamp {} {}", by.0, of.0),
        Ok(None) => println!(rt; "lamp out"),
        Err(refusal) => println!(rt; "lamp refused {}", refusal.number()),
    };
}
