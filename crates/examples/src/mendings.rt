// Computes examples of mending: the two boards of which one line is damaged in six bytes, and refused calls. What it writes is compared with the file
// `stdout`, which has what the rules give by hand.

use crate::lengths::TWO;
use table::wiring::Wiring;

const DAMAGED: [u8; TWO] = [0, 2, 1, 1, 255, 0, 0, 0, 7, 2, 2, 0, 3, 9, 1, 1];

// What one print cannot write is left out, and the next is tried all the same.
pub fn show(rt: &impl Print) {
    let mut table = DAMAGED;
    let mut report = [170u8; 4 * TWO + 1];
    mend_lines(rt, 2, &mut table, &mut report);
    // It keeps all rules now.
    mend_lines(rt, 2, &mut table, &mut report);
    mend_lines(rt, 65, &mut table, &mut report);
    mend_lines(rt, 3, &mut table, &mut report);
    let mut short = [0u8; 4 * TWO - 1];
    mend_lines(rt, 2, &mut table, &mut short);
}

fn mend_lines(rt: &impl Print, n: usize, table: &mut [u8], report: &mut [u8]) {
    let count = match mender::mend(Wiring::Cube, n, table, report) {
        Ok(count) => count,
        Err(refusal) => {
            let _ = println!(rt; "mending refused {}", refusal.number());
            return;
        }
    };
    let _ = println!(rt; "mended {count}");
    for change in report.chunks_exact(4).take(count) {
        if let [high, low, before, after] = change {
            let _ = println!(rt; "offset {} {}: {} became {}", high, low, before, after);
        }
    }
}
