// How the program was called: what its arguments ask for, or what is wrong with them.
ghost use Rattle.std.specs.Prelude.{◌≡◌, map, string_bytes};
ghost use Rattle.std.specs.Result.{result_map_both};
ghost use Rattle.std.specs.List.{list_any};
ghost use Rattle.watch.specs.Words.{wrong_call_words};
ghost use Rattle.watch.specs.Call.{is_ring_option, wiring_in, wanted, asked_by, asked_in};

use std::fs::{self, File};
use std::rt::{Env, Files};
use std::{env, fmt};
use table::wiring::Wiring;

// What is printed on --help.
pub const USAGE: &str = "\
Usage: ./watch [--ring] [FILE]

Carries out what FILE, or standard input, says of a plant of boards:
./watch samples/two-boards.txt

Its first line is the size, 2 to 64, in one to three digits. Each further line
is an entry, at most 4,096: a letter, a space and a board of one or two digits.
  T 5  board 5 takes a turn
  L 5  board 5 takes a turn, and the reply comes late
  C 5  board 5 crashes
Boards have the numbers from 0 to one less than the size.

With --ring, before or after FILE, the boards are wired as a ring: in a round
each board tests the next boards after it, one by one, until one exchanges.
Without it they are wired as a cube. Input and output have the same form.

A header is printed, a line for each entry taken, and a last line. The columns:
  station  the board
  tested   the board that it tested, - for none
  outcome  0 pass finished, 1 exchanged, 2 told and left, 3 no reply, 4 crash,
           5 the tested board was told and left
  status   0 live, 1 crashed, 2 left because told, 3 left because alone
The last line is \"rounds R tests T refused X at K\": R rounds were closed, T
tests made and K entries taken; X is 0, or says why line K + 2 was not taken,
or for 1 why line 1 was not:
  1  the size is not 2 to 64        10  the board is not live
  9  there is no such board         11  it has finished its pass (T and L only)
No other number is printed there.
If line N cannot be read, or is a 4,097th entry, just \"unread N\" is printed.
Standard error says in words what was refused, or what is expected on line N.

What changed since the last call is proved and built first; on a fresh clone
that is everything, and takes some minutes. Standard error says what is proved.

Exit status: 0 it is printed, whatever was refused or unread; 1 something is
not proved, the input cannot be read, or standard output cannot be written;
2 a wrong call.";

// What the arguments ask for: the usage, or what a file or standard input says to be carried out on a wiring.
#[derive(Drop)]
pub enum Call {
    Help,
    File(Wiring, File),
    StandardInput(Wiring),
}

// The same before a file is opened: the usage, or a run on a wiring, of the file with this path or of standard input.
#[derive(Drop)]
pub enum Asked {
    Help,
    Run(Wiring, Option<String>),
}

// What is wrong with them.
#[derive(Debug, Drop)]
pub enum WrongCall {
    NotText,
    TooMany,
    UnknownOption(String),
    NoSuchFile(String),
    Folder(String),
    CannotBeRead(String),
}

impl fmt::Display for WrongCall {
    ghost use Rattle.std.specs.Prelude.{Some};
    ghost use Rattle.watch.specs.Words.{wrong_call_words};

    ghost output = { λ wrong. Some (wrong_call_words wrong) };

    fn fmt<W: fmt::Write>(&self, f: &mut fmt::Formatter<W>) -> fmt::Result {
        match self {
            WrongCall::NotText => f.write_str("watch: an argument is not text in UTF-8"),
            WrongCall::TooMany => f.write_str("watch: more than one argument"),
            WrongCall::UnknownOption(word) => {
                write!(f, "watch: unknown option: {word} (see ./watch --help)")
            }
            WrongCall::NoSuchFile(path) => write!(f, "watch: no such file: {path}"),
            WrongCall::Folder(path) => write!(f, "watch: a folder, not a file: {path}"),
            WrongCall::CannotBeRead(path) => write!(f, "watch: cannot be read: {path}"),
        }
    }
}

// The option that gives the ring.
const RING: &str = "--ring";

// Reads the arguments, and opens the file that they name. It promises nothing: std's `Env` does not say what the arguments are. What they ask for
// is the promise of `understand`.
pub fn read_arguments(
    rt: &(impl Env + Files<File = File> + AllocGlobal),
) -> Result<Call, WrongCall> {
    let arguments = env::args(rt).map_err(|_| WrongCall::NotText)?.skip(1);
    let words = arguments
        .collect(rt.alloc())
        .map_err(|_| WrongCall::NotText)?;
    match understand(words)? {
        Asked::Help => Ok(Call::Help),
        Asked::Run(wiring, Some(path)) => Ok(Call::File(wiring, open(rt, path)?)),
        Asked::Run(wiring, None) => Ok(Call::StandardInput(wiring)),
    }
}

// What the words behind the program's name ask for. The option may stand anywhere among them; twice is taken as once.
fn understand(mut words: Vec<String>) -> Result<Asked, WrongCall>
    ensures { result_map_both wanted wrong_call_words result
        ≡ asked_in (map (λ w. string_bytes w) words.items) }
{
    let wiring = wiring_in(&words);
    words.retain(|word| word.as_str() != RING);
    if 1 < words.len() {
        return Err(WrongCall::TooMany);
    }
    match words.pop() {
        None => Ok(Asked::Run(wiring, None)),
        Some(word) => understand_word(wiring, word),
    }
}

// The wiring that the words ask for.
fn wiring_in(words: &[String]) -> Wiring
    ensures { result ≡ wiring_in (map (λ w. string_bytes w) words.now) }
{
    if has_ring_option(words) {
        Wiring::Ring
    } else {
        Wiring::Cube
    }
}

// Whether the option stands among the words.
fn has_ring_option(words: &[String]) -> bool
    ensures { result ≡ list_any is_ring_option (map (λ w. string_bytes w) words.now) }
{
    words.iter().any(|word| word.as_str() == RING)
}

// What the one word besides the option asks for.
fn understand_word(wiring: Wiring, word: String) -> Result<Asked, WrongCall>
    ensures { result_map_both wanted wrong_call_words result ≡ asked_by wiring (string_bytes word) }
{
    let text = word.as_str();
    if text == "-h" || text == "--help" {
        return Ok(Asked::Help);
    }
    if text.starts_with('-') {
        return Err(WrongCall::UnknownOption(word));
    }
    Ok(Asked::Run(wiring, Some(word)))
}

// Opens a file, and no folder.
fn open(rt: &impl Files<File = File>, path: String) -> Result<File, WrongCall> {
    match fs::metadata(rt, path.as_str()) {
        Err(_) => Err(WrongCall::NoSuchFile(path)),
        Ok(found) if found.is_dir() => Err(WrongCall::Folder(path)),
        Ok(_) => match fs::open(rt, path.as_str()) {
            Ok(file) => Ok(file),
            Err(_) => Err(WrongCall::CannotBeRead(path)),
        },
    }
}
