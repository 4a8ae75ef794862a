// The sheet of one plant, as it is printed.
ghost use Rattle.std.specs.Prelude.{◌≡◌, ◌≤◌, length, map, take, Some};
ghost use Rattle.std.specs.Fmt.{DisplaysOnOk};
ghost use Rattle.sheet.specs.Printed.{dead_from, dead_one, further_boards, untested_text, further_untested};
ghost use Rattle.sheet.specs.Text.{digits, width, list_columns, widest};
ghost use Rattle.sheet.specs.Layout.{spaces, board_cell, count_cells, tests_head};
ghost use Rattle.sheet.specs.Layout.{master_text, tests_line, untested_line, live_line, live_lines};

use crate::boards::Plant;
use arrayvec::ArrayVec;
use latency::turns;
use single_crash::bounds;
use slots::untested::Untested;
use std::fmt;
use table::Station;
use table::wiring::Wiring;

// The head of the lists of tests.
const LIST_HEAD: &str = "whom it tests, in order";

#[derive(Clone, Copy)]
pub struct Sheet {
    pub plant: Plant,
}

impl fmt::Display for Sheet {
    ghost use Rattle.sheet.specs.Layout.{sheet_text};

    ghost output = { λ sheet. Some (sheet_text sheet.plant.size (take sheet.plant.size sheet.plant.row)) };

    fn fmt<W: fmt::Write>(&self, f: &mut fmt::Formatter<W>) -> fmt::Result {
        let plant = &self.plant;
        let columns = widest(plant).max(LIST_HEAD.len());
        writeln!(
            f,
            "{} boards, dead:{}\n{}",
            plant.size,
            Dead(plant),
            Known(plant)
        )?;
        write_tests_head(f, columns)?;
        write_all_tests(f, plant, columns)?;
        f.write_str("\nboard  whom it does not test (who stands ahead)\n")?;
        write_all_untested(f, plant)
    }
}

// The dead boards of a plant, each behind a space.
#[derive(Clone, Copy)]
struct Dead<'a>(&'a Plant);

impl<'a> fmt::Display for Dead<'a> {
    ghost use Rattle.sheet.specs.Printed.{dead_text};

    ghost output = { λ dead. Some (dead_text (take dead.0.now.size dead.0.now.row)) };

    #[tactic(auto, using(crate::proofs::PrintLaws::none_dead, crate::proofs::PrintLaws::some_dead))]
    fn fmt<W: fmt::Write>(&self, f: &mut fmt::Formatter<W>) -> fmt::Result {
        let row = self.0.row();
        if self.0.live_boards() == row.len() {
            return f.write_str(" none");
        }
        write_dead(f, row)
    }
}

// After how many rounds and grants one more dead board of a plant is known everywhere; and where nobody is dead, under a bus master.
#[derive(Clone, Copy)]
struct Known<'a>(&'a Plant);

impl<'a> fmt::Display for Known<'a> {
    ghost use Rattle.sheet.specs.Layout.{known_text};

    ghost output = { λ known. Some (known_text known.0.now.size (take known.0.now.size known.0.now.row)) };

    #[tactic(auto, unfolding(crate::specs::Layout::known_text))]
    fn fmt<W: fmt::Write>(&self, f: &mut fmt::Formatter<W>) -> fmt::Result {
        let rounds = 1 + turns::worst_rounds(self.0.size);
        let grants = self.0.most_until_known();
        writeln!(
            f,
            "One more dead board is known everywhere after at most {rounds} rounds, {grants} grants"
        )?;
        write_under_master(f, self.0)
    }
}

// After how many rounds and grants one dead board is known everywhere under a bus master, where nobody is dead and that is proved of the size.
#[tactic(auto, unfolding(crate::specs::Layout::master_text))]
fn write_under_master<W: fmt::Write>(f: &mut fmt::Formatter<W>, plant: &Plant) -> fmt::Result
    ensures { let row = take plant.now.size plant.now.row in
        DisplaysOnOk W.write_str_gives f.old result (Some (master_text plant.now.size row)) f.new }
{
    if plant.live_boards() != plant.row().len() {
        return Ok(());
    }
    match bounds::one_dead_on(Wiring::Cube, plant.size) {
        Some(known) => writeln!(
            f,
            "Under a bus master, one board at a time: after at most {} rounds, {} grants",
            known.rounds, known.grants
        ),
        None => Ok(()),
    }
}

// The dead boards by a row, each behind a space.
#[tactic(auto, unfolding(crate::specs::Printed::dead_from))]
fn write_dead<W: fmt::Write>(f: &mut fmt::Formatter<W>, row: &[u8]) -> fmt::Result
    ensures { DisplaysOnOk W.write_str_gives f.old result (Some (dead_from 0 row.now)) f.new }
{
    for (board, dead) in row.iter().enumerate() {
        write_if_dead(f, board, *dead)?;
    }
    Ok(())
}

// A board behind a space, if it is dead.
fn write_if_dead<W: fmt::Write>(f: &mut fmt::Formatter<W>, board: usize, dead: u8) -> fmt::Result
    ensures { DisplaysOnOk W.write_str_gives f.old result (Some (dead_one board dead)) f.new }
{
    if dead == 0 {
        return Ok(());
    }
    write!(f, " {board}")
}

// The head of the lines of tests, where the lists are so wide.
fn write_tests_head<W: fmt::Write>(f: &mut fmt::Formatter<W>, columns: usize) -> fmt::Result
    ensures { DisplaysOnOk W.write_str_gives f.old result (Some (tests_head columns)) f.new }
{
    write!(f, "board  {LIST_HEAD}")?;
    write_spaces(f, columns.saturating_sub(LIST_HEAD.len()))?;
    f.write_str("  tests a round  most with one more dead\n")
}

// The line of tests of each live board.
#[tactic(auto, unfolding(crate::specs::SizeLines::each_below))]
fn write_all_tests<W: fmt::Write>(
    f: &mut fmt::Formatter<W>,
    plant: &Plant,
    columns: usize,
) -> fmt::Result
    ensures { let row = take plant.now.size plant.now.row in
        let text = live_lines (tests_line plant.now.size row columns) row plant.now.size in
        DisplaysOnOk W.write_str_gives f.old result (Some text) f.new }
{
    for i in 0..plant.size {
        write_tests_if_live(f, plant, Station(i), columns)?;
    }
    Ok(())
}

// The line of tests of a board, if it is live.
#[tactic(auto, unfolding(crate::specs::Layout::live_line))]
fn write_tests_if_live<W: fmt::Write>(
    f: &mut fmt::Formatter<W>,
    plant: &Plant,
    board: Station,
    columns: usize,
) -> fmt::Result
    ensures { let row = take plant.now.size plant.now.row in
        let text = live_line (tests_line plant.now.size row columns) row board.0 in
        DisplaysOnOk W.write_str_gives f.old result (Some text) f.new }
{
    if !plant.is_live(board) {
        return Ok(());
    }
    write_tests(f, plant, board, columns)
}

// The line of board i: whom it tests, how many these are, and the most with one more dead.
#[tactic(auto, unfolding(crate::specs::Layout::tests_line))]
fn write_tests<W: fmt::Write>(
    f: &mut fmt::Formatter<W>,
    plant: &Plant,
    i: Station,
    columns: usize,
) -> fmt::Result
    ensures { let text = tests_line plant.now.size (take plant.now.size plant.now.row) columns i.0 in
        DisplaysOnOk W.write_str_gives f.old result (Some text) f.new }
{
    let tests = slots::list_tests(plant.size, plant.row(), i);
    write_board(f, i)?;
    write!(f, "{}", Boards(&tests))?;
    write_spaces(f, columns.saturating_sub(width(&tests)))?;
    write_counts(f, tests.len(), plant.most_tests(i))
}

// Board i at the head of its line.
fn write_board<W: fmt::Write>(f: &mut fmt::Formatter<W>, i: Station) -> fmt::Result
    ensures { DisplaysOnOk W.write_str_gives f.old result (Some (board_cell i.0)) f.new }
{
    write!(f, "{:>5}  ", i.0)
}

// The number of tests, and the most with one more dead.
fn write_counts<W: fmt::Write>(f: &mut fmt::Formatter<W>, tests: usize, most: u8) -> fmt::Result
    ensures { DisplaysOnOk W.write_str_gives f.old result (Some (count_cells tests most)) f.new }
{
    writeln!(f, "  {tests:>13}  {most:>23}")
}

// The line of untested boards of each live board.
#[tactic(auto, unfolding(crate::specs::SizeLines::each_below))]
fn write_all_untested<W: fmt::Write>(f: &mut fmt::Formatter<W>, plant: &Plant) -> fmt::Result
    ensures { let row = take plant.now.size plant.now.row in
        let text = live_lines (untested_line plant.now.size row) row plant.now.size in
        DisplaysOnOk W.write_str_gives f.old result (Some text) f.new }
{
    for i in 0..plant.size {
        write_untested_if_live(f, plant, Station(i))?;
    }
    Ok(())
}

// The line of board i, if it is live: whom it does not test, and who stands ahead.
#[tactic(auto, unfolding(crate::specs::Layout::live_line, crate::specs::Layout::untested_line))]
fn write_untested_if_live<W: fmt::Write>(
    f: &mut fmt::Formatter<W>,
    plant: &Plant,
    i: Station,
) -> fmt::Result
    ensures { let row = take plant.now.size plant.now.row in
        let text = live_line (untested_line plant.now.size row) row i.0 in
        DisplaysOnOk W.write_str_gives f.old result (Some text) f.new }
{
    if !plant.is_live(i) {
        return Ok(());
    }
    let untested = slots::untested::list_untested(plant.size, plant.row(), i);
    write_board(f, i)?;
    writeln!(f, "{}", Ahead(&untested))
}

// So many spaces.
fn write_spaces<W: fmt::Write>(f: &mut fmt::Formatter<W>, count: usize) -> fmt::Result
    ensures { DisplaysOnOk W.write_str_gives f.old result (Some (spaces count)) f.new }
{
    for k in 0..count {
        f.write_str(" ")?;
    }
    Ok(())
}

// How wide the widest list of tests of a live board is.
fn widest(plant: &Plant) -> usize
    ensures { result ≡ widest plant.now.size (take plant.now.size plant.now.row) }
{
    (0..plant.size)
        .map(|i| list_columns(plant, Station(i)))
        .max()
        .unwrap_or(0)
}

// How wide the list of tests of a live board is; 0 for another.
#[tactic(auto, unfolding(crate::specs::Text::list_columns))]
fn list_columns(plant: &Plant, i: Station) -> usize
    ensures { result ≡ list_columns plant.now.size (take plant.now.size plant.now.row) i.0 }
{
    if !plant.is_live(i) {
        return 0;
    }
    width(&slots::list_tests(plant.size, plant.row(), i))
}

// Boards with a space between.
#[derive(Clone, Copy)]
struct Boards<'a>(&'a [Station]);

impl<'a> fmt::Display for Boards<'a> {
    ghost use Rattle.sheet.specs.Printed.{boards_text};

    ghost output = { λ boards. Some (boards_text boards.0.now) };

    fn fmt<W: fmt::Write>(&self, f: &mut fmt::Formatter<W>) -> fmt::Result {
        let [first, rest @ ..] = self.0 else {
            return Ok(());
        };
        write!(f, "{}", first.0)?;
        write_further(f, rest)
    }
}

// Boards, each behind a space.
fn write_further<W: fmt::Write>(f: &mut fmt::Formatter<W>, boards: &[Station]) -> fmt::Result
    ensures { DisplaysOnOk W.write_str_gives f.old result (Some (further_boards boards.now)) f.new }
{
    for board in boards {
        write!(f, " {}", board.0)?;
    }
    Ok(())
}

// How wide they are.
fn width(boards: &[Station]) -> usize
    requires { length boards.now ≤ 255 }
    ensures { result ≡ width (map (λ x. x.0) boards.now) }
{
    let mut columns = boards.len().saturating_sub(1);
    for board in boards {
        columns += digits(board.0);
    }
    columns
}

// How many digits a number has.
fn digits(x: u8) -> usize
    ensures { result ≡ digits x }
{
    match x {
        0..10 => 1,
        10..100 => 2,
        100.. => 3,
    }
}

// Boards that are not tested, each with the one ahead in brackets, and commas between; - for none.
#[derive(Clone, Copy)]
struct Ahead<'a>(&'a [Untested]);

impl<'a> fmt::Display for Ahead<'a> {
    ghost use Rattle.sheet.specs.Printed.{ahead_text};

    ghost output = { λ boards. Some (ahead_text boards.0.now) };

    fn fmt<W: fmt::Write>(&self, f: &mut fmt::Formatter<W>) -> fmt::Result {
        let [first, rest @ ..] = self.0 else {
            return f.write_str("-");
        };
        write_untested(f, *first)?;
        write_further_untested(f, rest)
    }
}

// A board that is not tested, with the one ahead in brackets.
fn write_untested<W: fmt::Write>(f: &mut fmt::Formatter<W>, untested: Untested) -> fmt::Result
    ensures { DisplaysOnOk W.write_str_gives f.old result (Some (untested_text untested)) f.new }
{
    write!(f, "{} ({})", untested.board.0, untested.ahead.0)
}

// Such boards, each behind a comma.
fn write_further_untested<W: fmt::Write>(
    f: &mut fmt::Formatter<W>,
    boards: &[Untested],
) -> fmt::Result
    ensures { DisplaysOnOk W.write_str_gives f.old result (Some (further_untested boards.now)) f.new }
{
    for untested in boards {
        f.write_str(", ")?;
        write_untested(f, *untested)?;
    }
    Ok(())
}
