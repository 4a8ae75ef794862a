// The commissioning sheet: `sheet SIZE [DEAD BOARDS ..]` prints for each live board of a plant, whose dead boards are known to all, which boards it
// tests, how many, the most that one more dead board can make of it, and who stands ahead where it does not test; and before these after how many
// rounds and grants one more dead board is known everywhere. `sheet --sizes` prints the most tests of a board at every size, and those figures.
#![tactic(auto)]

mod boards;
mod call;
mod sheet;
mod sizes;

use anyhow::Context;
use call::{Call, WrongCall};
use sheet::Sheet;
use sizes::SizeTable;
use std::io::{self, ErrorKind};
use std::process::ExitCode;

fn main(rt: HostRuntime) -> anyhow::Result<ExitCode> {
    match call::read_arguments(&rt) {
        Ok(call) => written(print(&rt, call))?,
        Err(wrong) => {
            explain(&rt, wrong);
            return Ok(ExitCode::from(2));
        }
    }
    Ok(ExitCode::SUCCESS)
}

// Words for people: that they cannot be written changes nothing.
fn explain(rt: &impl Eprint, wrong: WrongCall) {
    let said = match wrong {
        // clap's words have their line feed.
        WrongCall::Words(_) => rt.eprint(wrong),
        WrongCall::NoSize => rt.eprintln(format_args!("{wrong}\n{}", call::USAGE)),
        _ => rt.eprintln(wrong),
    };
    said.unwrap_or(());
}

// Prints what is asked for.
fn print(rt: &impl Print, call: Call) -> io::Result<()> {
    match call {
        Call::Help => rt.println(call::USAGE),
        Call::Sheet(plant) => rt.print(Sheet { plant }),
        Call::Sizes => rt.print(SizeTable),
    }
}

// What became of a write to standard output. That the reader of a pipe stops reading is no failure.
fn written(done: io::Result<()>) -> anyhow::Result<()> {
    match done {
        Err(error) if error.kind() == ErrorKind::BrokenPipe => Ok(()),
        done => done.context("standard output cannot be written"),
    }
}
