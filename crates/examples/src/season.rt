// Computes examples of figures. What it writes is compared with the file `stdout`, whose figures were worked out by hand.

use figures::{Figures, Totals, adding, batch};
use lists::refusal::{Refusal, parts};

// What one print cannot write is left out, and the next is tried all the same.
pub fn show(rt: &impl Print) {
    short_lists(rt);
    two_lists(rt);
    long_lists(rt);
    kept_totals(rt);
}

fn short_lists(rt: &impl Print) {
    let eight = [2u16, 4, 4, 4, 5, 5, 7, 9];
    figures_line(rt, "2 4 4 4 5 5 7 9", batch::figures(&eight));
    let two = [1u16, 2];
    figures_line(rt, "1 2", batch::figures(&two));
    let three = [1u16, 1, 2];
    figures_line(rt, "1 1 2", batch::figures(&three));
    let zero = [0u16];
    figures_line(rt, "0", batch::figures(&zero));
    let greatest = [65535u16];
    figures_line(rt, "65535", batch::figures(&greatest));
    figures_line(rt, "none", batch::figures(&zero[0..0]));
}

fn two_lists(rt: &impl Print) {
    let first = [1u16, 2];
    let second = [1u16, 2];
    figures_line(
        rt,
        "1 and 2",
        batch::figures_of_two(&first[0..1], &second[1..2]),
    );
    figures_line(
        rt,
        "none and 1 2",
        batch::figures_of_two(&first[0..0], &second),
    );
    figures_line(
        rt,
        "1 2 and none",
        batch::figures_of_two(&first, &second[0..0]),
    );
    figures_line(
        rt,
        "none and none",
        batch::figures_of_two(&first[0..0], &second[0..0]),
    );
}

fn long_lists(rt: &impl Print) {
    let low = [0u16; 4097];
    let high = [65535u16; 4097];
    figures_line(rt, "4096 times 65535", batch::figures(&high[0..4096]));
    figures_line(rt, "4097 times 65535", batch::figures(&high));
    figures_line(
        rt,
        "2048 times 0 and 2048 times 65535",
        batch::figures_of_two(&low[0..2048], &high[0..2048]),
    );
    figures_line(
        rt,
        "1 time 0 and 4095 times 65535",
        batch::figures_of_two(&low[0..1], &high[0..4095]),
    );
    figures_line(
        rt,
        "1 time 0 and 4096 times 65535",
        batch::figures_of_two(&low[0..1], &high[0..4096]),
    );
    figures_line(
        rt,
        "4097 times 0 and none",
        batch::figures_of_two(&low, &high[0..0]),
    );
}

// The totals of three results and of five, joined; the figures of totals at the bounds and beyond.
fn kept_totals(rt: &impl Print) {
    let eight = [2u16, 4, 4, 4, 5, 5, 7, 9];
    let three = adding::totals(&eight[0..3]);
    let five = adding::totals(&eight[3..8]);
    let none = adding::totals(&eight[0..0]);
    totals_line(rt, "2 4 4", three);
    totals_line(rt, "none", none);
    totals_line(rt, "2 4 4 and 4 5 5 7 9", joined(three, five));
    totals_line(rt, "none and 4 5 5 7 9", joined(none, five));
    totals_line(
        rt,
        "4096 and 1 results",
        adding::join(bare_totals(4096, 0), bare_totals(1, 0)),
    );
    figures_line(rt, "the eight", figures_of_both(three, five));
    figures_line(
        rt,
        "no result with a sum",
        batch::figures_of_totals(bare_totals(0, 268431361)),
    );
    figures_line(
        rt,
        "1 result with the sum of more than 4096",
        batch::figures_of_totals(bare_totals(1, 268431361)),
    );
}

// Totals of so many results with a sum, all else 0.
fn bare_totals(count: u64, sum: u64) -> Totals {
    Totals {
        count,
        sum,
        ..Totals::default()
    }
}

// The join of the totals of two answers.
fn joined(a: Result<Totals, Refusal>, b: Result<Totals, Refusal>) -> Result<Totals, Refusal> {
    adding::join(a?, b?)
}

// The figures of the join of the totals of two answers.
fn figures_of_both(
    a: Result<Totals, Refusal>,
    b: Result<Totals, Refusal>,
) -> Result<Figures, Refusal> {
    batch::figures_of_totals(joined(a, b)?)
}

fn figures_line(rt: &impl Print, of: &str, answer: Result<Figures, Refusal>) {
    let (number, f) = parts(answer, Figures::default());
    let _ = println!(rt;
        "{of}: number {number} count {} least {} greatest {} mean {}/{} variance {}/{}",
        f.count, f.least, f.greatest, f.mean.upper, f.mean.lower, f.variance.upper, f.variance.lower
    );
}

fn totals_line(rt: &impl Print, of: &str, answer: Result<Totals, Refusal>) {
    let (number, t) = parts(answer, Totals::default());
    let _ = println!(rt;
        "{of}: number {number} count {} sum {} squares {} least {} greatest {}",
        t.count, t.sum, t.squares, t.least, t.greatest
    );
}
