// The most tests of a board at every size from 2 to 64, with nobody dead and with any one dead, and after how many rounds and grants that one is
// known everywhere: a table of three sizes to a row.
ghost use Rattle.std.specs.Prelude.{◌≡◌, ◌≤◌, replicate, Some};
ghost use Rattle.std.specs.Fmt.{DisplaysOnOk};
ghost use Rattle.slots.specs.Slots.{most_of_boards};
ghost use Rattle.latency.specs.Turns.{most_until_known};
ghost use Rattle.sheet.specs.SizeLines.{size_cells, known_cells};

use latency::turns;
use single_crash::bounds;
use std::fmt;
use table::wiring::Wiring;

// The head of the table.
const HEAD: &str = "\
| boards | nobody dead | one dead | rounds | grants | bus master | boards | nobody dead | one dead | rounds | grants | bus master \
| boards | nobody dead | one dead | rounds | grants | bus master |
|--:|--:|--:|--:|--:|--:|--:|--:|--:|--:|--:|--:|--:|--:|--:|--:|--:|--:|
";

#[derive(Clone, Copy)]
pub struct SizeTable;

impl fmt::Display for SizeTable {
    ghost use Rattle.sheet.specs.SizeLines.{size_table};

    ghost output = { λ _. Some size_table };

    #[tactic(auto, unfolding(crate::specs::SizeLines::each_below))]
    fn fmt<W: fmt::Write>(&self, f: &mut fmt::Formatter<W>) -> fmt::Result {
        f.write_str(HEAD)?;
        for k in 0..21 {
            write_size(f, k + 2)?;
            write_size(f, k + 23)?;
            write_size(f, k + 44)?;
            f.write_str("|\n")?;
        }
        Ok(())
    }
}

// The six cells of a size: the most tests of a board with nobody dead, and with any one dead; and the rounds and grants until that one is known.
fn write_size<W: fmt::Write>(f: &mut fmt::Formatter<W>, n: u8) -> fmt::Result
    requires { n ≤ 64 }
    ensures { DisplaysOnOk W.write_str_gives f.old result (Some (size_cells n)) f.new }
{
    let none_dead = most_tests(n, false);
    let one_dead = most_tests(n, true);
    write!(f, "| {n} | {none_dead} | {one_dead} ")?;
    write_known(f, n)
}

// Three of them: after how many rounds and after how many grants one dead board is known everywhere, with nobody dead before, and after how many
// grants of a bus master.
#[tactic(auto, unfolding(crate::specs::SizeLines::known_cells))]
fn write_known<W: fmt::Write>(f: &mut fmt::Formatter<W>, n: u8) -> fmt::Result
    requires { n ≤ 64 }
    ensures { DisplaysOnOk W.write_str_gives f.old result (Some (known_cells n)) f.new }
{
    let rounds = 1 + turns::worst_rounds(n);
    let grants = most_until_known(n);
    write!(f, "| {rounds} | {grants} ")?;
    match bounds::one_dead_on(Wiring::Cube, n) {
        Some(known) => write!(f, "| {} ", known.grants),
        None => f.write_str("| - "),
    }
}

// After how many grants one dead board is known everywhere, with nobody dead before.
fn most_until_known(n: u8) -> u32
    requires { n ≤ 64 }
    ensures { result ≡ most_until_known n (replicate n 0) }
{
    let mut row = [0; 64];
    turns::most_until_known(n, &mut row[..n as usize])
}

// The most tests of any of n boards where nobody is dead, or any one.
fn most_tests(n: u8, one_dead: bool) -> u8
    requires { n ≤ 64 }
    ensures { result ≡ most_of_boards n (replicate n 0) one_dead }
{
    let mut row = [0; 64];
    slots::most_of_boards(n, &mut row[..n as usize], one_dead)
}
