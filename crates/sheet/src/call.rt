// What the arguments ask for, or what is wrong with them. `clap` reads the words.
ghost use Rattle.std.specs.Prelude.{◌≡◌, map, IfOk, string_bytes};
ghost use Rattle.std.specs.Result.{result_map_both};
ghost use Rattle.clap.specs.Matches.{found_of};
ghost use Rattle.clap.specs.Faults.{fault_of};
ghost use Rattle.clap.specs.Kinds.{FailsBy};
ghost use Rattle.clap.specs.Simple.{app_of, matches_of};
ghost use Rattle.clap.specs.Walk.{rows_of};
ghost use Rattle.sheet.specs.Call.{Answers, asked, sheet_command, understood};

use crate::boards::Plant;
use clap::error::ErrorKind;
use clap::{Arg, ArgAction, ArgMatches, Command};
use std::alloc::{AllocError, Global};
use std::rt::Env;
use std::{env, fmt};

// What is printed on --help.
pub const USAGE: &str = "\
Usage: ./sheet SIZE [DEAD BOARDS ..]
       ./sheet --sizes

Prints the commissioning sheet of a plant of SIZE boards, 2 to 64, of which those
named are dead and every live board knows it: ./sheet 8 4
SIZE has one to three digits, a board one or two.
First: after how many rounds and grants one more dead board is known everywhere, and
under a bus master, where nobody is dead and that is proved of the size.
For each live board: whom it tests, in order; how many tests these are, and the most
with one more dead board; whom it does not test, and who stands ahead.

--sizes prints for each size the most tests of a board, with nobody and with one dead,
those rounds and grants with nobody dead before, and the grants under a bus master.

What changed since the last call is proved and built first; on a fresh clone that
is everything, and takes some minutes. Standard error says what is proved.

Exit status: 0 it is printed; 1 something is not proved, or standard output cannot
be written; 2 a wrong call.";

// What the arguments ask for: the usage, the sheet of a plant, or the table over all sizes.
#[derive(Clone, Copy)]
pub enum Call {
    Help,
    Sheet(Plant),
    Sizes,
}

// What is wrong with the arguments. Numbers are counted from 1, the size first.
#[derive(Debug, Drop)]
pub enum WrongCall {
    NotText,
    Words(clap::Error),
    NoSize,
    NotASize,
    MoreThanSizes,
    NotABoard { argument: usize, last: u8 },
    NamedAgain { argument: usize },
    TooFewLive,
}

impl fmt::Display for WrongCall {
    ghost use Rattle.sheet.specs.Printed.{wrong_call_words};

    ghost output = { wrong_call_words };

    fn fmt<W: fmt::Write>(&self, f: &mut fmt::Formatter<W>) -> fmt::Result {
        match self {
            WrongCall::NotText => f.write_str("sheet: an argument is not text in UTF-8"),
            WrongCall::Words(error) => write!(f, "{error}"),
            WrongCall::NoSize => f.write_str("sheet: a size is needed, from 2 to 64"),
            WrongCall::NotASize => f.write_str("sheet: argument 1 is not a size from 2 to 64"),
            WrongCall::MoreThanSizes => f.write_str("sheet: --sizes takes no other argument"),
            WrongCall::NotABoard { argument, last } => {
                write!(
                    f,
                    "sheet: argument {argument} is not a board from 0 to {last}"
                )
            }
            WrongCall::NamedAgain { argument } => {
                write!(f, "sheet: argument {argument} repeats a board")
            }
            WrongCall::TooFewLive => f.write_str("sheet: at least two boards must be live"),
        }
    }
}

// Reads the arguments. It promises nothing: std's `Env` does not say what the arguments are. What they ask for is the promise of `understand`.
pub fn read_arguments(rt: &(impl Env + AllocGlobal)) -> Result<Call, WrongCall> {
    let arguments = env::args(rt).map_err(|_| WrongCall::NotText)?;
    let words: Vec<String> = arguments
        .collect(rt.alloc())
        .map_err(|error| WrongCall::Words(error.into()))?;
    understand(rt.alloc(), &words)
}

// What the words ask for, of which the first is the program's name.
pub fn understand(alloc: Global, words: &[String]) -> Result<Call, WrongCall>
    ensures { Answers (map (λ w. string_bytes w) words.now) result }
{
    match parse(alloc, words) {
        Ok(matches) => call_of(&matches),
        Err(error) if error.kind() == ErrorKind::DisplayHelp => Ok(Call::Help),
        Err(error) => Err(WrongCall::Words(error)),
    }
}

// What clap makes of the words.
fn parse(alloc: Global, words: &[String]) -> Result<ArgMatches<'_>, clap::Error>
    ensures found { let texts = map (λ w. string_bytes w) words.now in
        IfOk result (λ m. rows_of (found_of m) ≡ matches_of sheet_command texts) }
    ensures faults { FailsBy (fault_of sheet_command (map (λ w. string_bytes w) words.now)) result }
{
    command(alloc)?.try_get_matches_from(words)
}

// The flag --sizes, and the size and the dead boards, which are all numbers.
fn command<'a>(alloc: Global) -> Result<Command<'a>, AllocError>
    ensures { IfOk result (λ c. app_of c ≡ sheet_command) }
{
    let sizes = Arg::new(alloc, "sizes")
        .long("sizes")
        .action(ArgAction::Count);
    let numbers = Arg::new(alloc, "numbers").num_args(1..);
    Command::new(alloc, "sheet")
        .override_usage("./sheet SIZE [DEAD BOARDS ..]\n       ./sheet --sizes")
        .arg(sizes)?
        .arg(numbers)
}

// What they ask for by what clap makes of them.
fn call_of(matches: &ArgMatches<'_>) -> Result<Call, WrongCall>
    ensures { result_map_both asked (λ e. e) result ≡ understood (rows_of (found_of matches.now)) }
{
    let numbers = matches.get_raw("numbers").unwrap_or(&[]);
    let flags = matches.get_count("sizes");
    if flags == 0 {
        let Some((size, boards)) = numbers.split_first() else {
            return Err(WrongCall::NoSize);
        };
        return Ok(Call::Sheet(Plant::read(size.as_bytes(), boards)?));
    }
    if 1 < flags || !numbers.is_empty() {
        return Err(WrongCall::MoreThanSizes);
    }
    Ok(Call::Sizes)
}
