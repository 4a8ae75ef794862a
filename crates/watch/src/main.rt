// The run program: it reads a size and a schedule from a file or from standard input, carries the schedule out, on the cube or by an option on the
// ring, on a fresh table with zero tallies and prints the run sheet and the answer. On standard error it says in words what was refused or cannot
// be read.
#![tactic(auto)]

mod call;
mod print;
mod watched;

ghost use Rattle.std.specs.Prelude.{◌≡◌, IfOk, IfSome, take};
ghost use Rattle.watch.specs.Watched.{deciding};

use anyhow::Context;
use call::{Call, WrongCall};
use print::{Line, RunSheet};
use std::alloc::Global;
use std::fmt::Display;
use std::io::{self, ErrorKind, IsTerminal, Read};
use std::process::ExitCode;
use table::cells;
use table::wiring::Wiring;

fn main(rt: HostRuntime) -> anyhow::Result<ExitCode> {
    match call::read_arguments(&rt) {
        Ok(Call::Help) => written(rt.println(call::USAGE))?,
        Ok(Call::File(wiring, file)) => watch(&rt, wiring, file)?,
        Ok(Call::StandardInput(wiring)) => {
            if rt.stdin().is_terminal() {
                explain(&rt, HINT);
            }
            watch(&rt, wiring, rt.stdin())?;
        }
        Err(wrong) => {
            let too_many = matches!(wrong, WrongCall::TooMany);
            explain(&rt, wrong);
            if too_many {
                explain(&rt, call::USAGE);
            }
            return Ok(ExitCode::from(2));
        }
    }
    Ok(ExitCode::SUCCESS)
}

const HINT: &str = "reading standard input: a size, then a line per entry; Ctrl-D ends it";

// Reads the input, carries it out on a wiring and prints what comes of it; then says in words what was refused or cannot be read.
fn watch<R: Read + Drop>(
    rt: &(impl Print + Eprint + AllocGlobal),
    wiring: Wiring,
    input: R,
) -> anyhow::Result<()> {
    let input = read_front(rt.alloc(), input).context("the input cannot be read")?;
    let mut schedule = [0u8; 8192];
    let mut table = [0u8; cells::GREATEST_TABLE];
    let mut sheet = [0u8; 16384];
    match watched::watch_plant(wiring, &input, &mut schedule, &mut table, &mut sheet) {
        Ok(ran) => {
            written(rt.println(RunSheet { sheet: &sheet, ran }))?;
            if let Some(refusal) = ran.stopped {
                let line = Line::refused(&input, refusal, ran.taken);
                let number = refusal.number();
                explain(
                    rt,
                    format_args!("refused {number} at {}: {refusal}{line}", ran.taken),
                );
            }
        }
        Err(unread) => {
            written(println!(rt; "unread {}", unread.line))?;
            explain(
                rt,
                format_args!("{unread}{}", Line::of(&input, unread.line)),
            );
        }
    }
    Ok(())
}

// What became of a write to standard output. That the reader of a pipe stops reading is no failure.
fn written(done: io::Result<()>) -> anyhow::Result<()> {
    match done {
        Err(error) if error.kind() == ErrorKind::BrokenPipe => Ok(()),
        done => done.context("standard output cannot be written"),
    }
}

// Words for people: that they cannot be written changes nothing.
fn explain(rt: &impl Eprint, words: impl Display + Drop) {
    rt.eprintln(words).unwrap_or(());
}

// The front of the input, which decides what comes of it. The first 20,490 bytes decide every input. A readable line has at most three bytes
// (the size) or four (an entry) and its line feed, so the size and 4,096 entries have at most 4 + 5 · 4,096 = 20,484. Where those bytes hold an
// unreadable line whole, or begin a 4,097th entry's, that line's number is the answer, whatever follows. Else, in a longer input, at least six
// bytes with no line feed follow the last whole line; the line that they begin is longer than four bytes and so unreadable, cut or not. The
// clause `decided` of `watched::watch_plant` says it.
fn read_front<R: Read + Drop>(alloc: Global, input: R) -> io::Result<Vec<u8>>
    ensures { IfOk result (λ front. IfSome (R.remaining input)
        (λ whole. front.items ≡ take deciding whole)) }
{
    let mut front = Vec::new(alloc);
    input.take(20490).read_to_end(&mut front)?;
    Ok(front)
}
