// What the run program prints.
ghost use Rattle.std.specs.Prelude.{◌≡◌, ◌≢◌, ◌≤◌, ◌+◌, Some};
ghost use Rattle.std.specs.Fmt.{DisplaysOnOk};
ghost use Rattle.watch.specs.Words.{line_text, lines_text, last_line};
ghost use Rattle.lists.specs.declared.refusal.Refusal.{Refusal};

use lists::refusal::Refusal;
use plant::{Ran, Tally};
use std::fmt;

// A run: the header, a line for each entry taken, and the last line.
#[derive(Clone, Copy)]
pub struct RunSheet<'a> {
    pub sheet: &'a [u8],
    pub ran: Ran,
}

impl<'a> fmt::Display for RunSheet<'a> {
    ghost use Rattle.watch.specs.Words.{run_text};

    ghost output = { λ run. Some (run_text run.ran run.sheet.now) };

    #[tactic(auto, using(std::proofs::lemmas::List::take_min))]
    fn fmt<W: fmt::Write>(&self, f: &mut fmt::Formatter<W>) -> fmt::Result {
        f.write_str("station tested outcome status\n")?;
        let lines = self.sheet.as_chunks::<4>().0;
        write_lines(f, &lines[..self.ran.taken.min(lines.len())])?;
        write_last_line(f, self.ran)
    }
}

// Lines of the sheet.
fn write_lines<W: fmt::Write>(f: &mut fmt::Formatter<W>, lines: &[[u8; 4]]) -> fmt::Result
    ensures { DisplaysOnOk W.write_str_gives f.old result (Some (lines_text lines.now)) f.new }
{
    for line in lines {
        write_line(f, *line)?;
    }
    Ok(())
}

// A line of the sheet; - where no station was tested.
fn write_line<W: fmt::Write>(f: &mut fmt::Formatter<W>, line: [u8; 4]) -> fmt::Result
    ensures { DisplaysOnOk W.write_str_gives f.old result (Some (line_text line)) f.new }
{
    let [station, tested, outcome, status] = line;
    if tested == 255 {
        writeln!(f, "{station} - {outcome} {status}")
    } else {
        writeln!(f, "{station} {tested} {outcome} {status}")
    }
}

// The tally, and how the run ended.
fn write_last_line<W: fmt::Write>(f: &mut fmt::Formatter<W>, ran: Ran) -> fmt::Result
    ensures { DisplaysOnOk W.write_str_gives f.old result (Some (last_line ran)) f.new }
{
    let Tally { rounds, tests } = ran.tally;
    let number = plant::stop_refusal(ran.stopped);
    let taken = ran.taken;
    write!(
        f,
        "rounds {rounds} tests {tests} refused {number} at {taken}"
    )
}

// A line of the input, for people.
#[derive(Clone, Copy)]
pub struct Line<'a> {
    number: usize,
    text: &'a [u8],
}

impl<'a> Line<'a> {
    // The line with this number, from 1.
    pub fn of(input: &'a [u8], number: usize) -> Line<'a> {
        let before = number.saturating_sub(1);
        let text = input.split(|b| *b == b'\n').nth(before).unwrap_or(&[]);
        Line { number, text }
    }

    // The line at which a run was refused: that of the size, or that of the entry behind those taken.
    pub fn refused(input: &'a [u8], refusal: Refusal, taken: usize) -> Line<'a> {
        Line::of(input, refused_line(refusal, taken))
    }
}

// Its number and text, in ASCII characters that can be printed; after 40 bytes it is cut. Nothing of an empty line. It promises no text, since std's
// `escape_ascii` does not.
impl<'a> fmt::Display for Line<'a> {
    fn fmt<W: fmt::Write>(&self, f: &mut fmt::Formatter<W>) -> fmt::Result {
        if self.text.is_empty() {
            return Ok(());
        }
        write!(f, "; line {}: ", self.number)?;
        match self.text.get(..40) {
            Some(front) if front.len() < self.text.len() => write!(f, "{}..", front.escape_ascii()),
            _ => write!(f, "{}", self.text.escape_ascii()),
        }
    }
}

// The number of the line at which a run was refused.
fn refused_line(refusal: Refusal, taken: usize) -> usize
    ensures size { refusal ≡ Refusal.SizeOutOfRange → result ≡ 1 }
    ensures entry { refusal ≢ Refusal.SizeOutOfRange → taken ≤ 4096 → result ≡ taken + 2 }
{
    match refusal {
        Refusal::SizeOutOfRange => 1,
        _ => taken.saturating_add(2),
    }
}
