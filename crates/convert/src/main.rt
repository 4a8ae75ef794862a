// The program for people who have stored files: it converts a file of edition 1 to one of edition 2, and says of any file what it is.
#![tactic(auto)]

mod call;
mod output;
mod place;
mod what;

ghost use Rattle.std.specs.Prelude.{◌≡◌, ◌+◌, ◌≤◌, length, take, IfOk, IfSome};
ghost use Rattle.convert.specs.What.{greatest_saved};

use anyhow::Context;
use call::{Call, WrongCall};
use std::alloc::Global;
use std::fmt::Display;
use std::fs::File;
use std::io::{self, ErrorKind, IsTerminal, Read};
use std::process::ExitCode;
use what::{GREATEST_SAVED, What};

fn main(rt: HostRuntime) -> anyhow::Result<ExitCode> {
    match call::read_arguments(&rt) {
        Ok(Call::Help) => printed(rt.println(call::USAGE))?,
        Ok(Call::Check(file)) => return check(&rt, file),
        Ok(Call::Convert { old, new }) => {
            let mut buffer = [0u8; GREATEST_SAVED];
            let Some(len) = convert(&rt, old, &mut buffer)? else {
                return Ok(ExitCode::from(1));
            };
            new.write(&rt, &buffer[..len])?;
        }
        Ok(Call::StandardInput) => {
            if rt.stdin().is_terminal() {
                explain(&rt, HINT);
            }
            let mut buffer = [0u8; GREATEST_SAVED];
            let Some(len) = convert(&rt, rt.stdin(), &mut buffer)? else {
                return Ok(ExitCode::from(1));
            };
            rt.write_all(&buffer[..len]).context(UNWRITTEN)?;
        }
        Err(WrongCall::WrongNumber) => {
            explain(&rt, WrongCall::WrongNumber);
            explain(&rt, call::USAGE);
            return Ok(ExitCode::from(2));
        }
        Err(wrong) => {
            explain(&rt, wrong);
            return Ok(ExitCode::from(2));
        }
    }
    Ok(ExitCode::SUCCESS)
}

const UNWRITTEN: &str = "standard output cannot be written";

const UNREAD: &str = "the input cannot be read";

const HINT: &str = "reading a stored file from standard input";

// Prints what a file is. The status is 1 where it is of no edition.
fn check(rt: &(impl Print + AllocGlobal), file: File) -> anyhow::Result<ExitCode> {
    let file = read_front(rt.alloc(), file).context(UNREAD)?;
    let what = what::look_at(&file);
    printed(rt.println(what))?;
    match what {
        What::FirstEdition | What::SecondEdition => Ok(ExitCode::SUCCESS),
        What::WithoutOpening | What::Damaged(_) => Ok(ExitCode::from(1)),
    }
}

// Converts what is read into the buffer, and answers the length; or says why not.
fn convert<R: Read + Drop>(
    rt: &(impl Eprint + AllocGlobal),
    old: R,
    buffer: &mut [u8; GREATEST_SAVED],
) -> anyhow::Result<Option<usize>>
    ensures { IfOk result (λ found. IfSome found (λ len. len ≤ length buffer.new)) }
{
    let old = read_front(rt.alloc(), old).context(UNREAD)?;
    match what::convert_file(&old, buffer) {
        Ok(len) => Ok(Some(len)),
        Err(fault) => {
            explain(rt, fault);
            match what::look_at(&old) {
                What::Damaged(_) => {}
                what => explain(rt, format_args!("the file is: {what}")),
            }
            Ok(None)
        }
    }
}

// What became of printing for a person. That the reader of a pipe stops reading is no failure then. It is one where a converted file is written.
fn printed(done: io::Result<()>) -> anyhow::Result<()> {
    match done {
        Err(error) if error.kind() == ErrorKind::BrokenPipe => Ok(()),
        done => done.context(UNWRITTEN),
    }
}

// Words for people: that they cannot be written changes nothing.
fn explain(rt: &impl Eprint, words: impl Display + Drop) {
    rt.eprintln(words).unwrap_or(());
}

// The front of a file, of one byte more than any saved plant has: a longer one is not looked into.
fn read_front<R: Read + Drop>(alloc: Global, input: R) -> io::Result<Vec<u8>>
    ensures { IfOk result (λ front. IfSome (R.remaining input) (λ whole. front.items ≡ take (greatest_saved + 1) whole)) }
{
    let mut front = Vec::new(alloc);
    input
        .take(GREATEST_SAVED as u64 + 1)
        .read_to_end(&mut front)?;
    Ok(front)
}
