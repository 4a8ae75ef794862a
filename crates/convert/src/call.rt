// How the program was called: what its arguments ask for, or what is wrong with them.
use crate::output::NewFile;
use std::fs::{self, File};
use std::rt::{Env, Files};
use std::{env, fmt};

// What is printed on --help.
pub const USAGE: &str = "\
Usage: ./convert [--force] OLD NEW
       ./convert <OLD >NEW
       ./convert --check FILE

Converts OLD, a stored file of edition 1, to NEW, a file of edition 2, which
panels take. Where OLD is refused, standard error says why and at which byte,
counted from 0: where the field at fault begins, or the end of the file where a
field is missing. Nothing is written then.
NEW must not exist; with --force, a file NEW is replaced, also where it is OLD.
A file is first written whole; what cannot be written whole is removed again.

--check prints what FILE is:
  edition 2
  edition 1
  saved by version 0.9 or 0.10: for edition 2 put the bytes 4 0 1 2 in front
  damaged: why, and at which byte

What changed since the last call is proved and built first; on a fresh clone
that is everything, and takes some minutes. Standard error says what is proved.

Exit status: 0 converted, or of an edition; 1 refused, not written, or of no
edition, or something is not proved; 2 a wrong call.";

// What the arguments ask for: the usage, what a file is, or to convert a file or standard input.
#[derive(Drop)]
pub enum Call {
    Help,
    Check(File),
    Convert { old: File, new: NewFile },
    StandardInput,
}

// What is wrong with them.
#[derive(Debug, Drop)]
pub enum WrongCall {
    NotText,
    WrongNumber,
    UnknownOption(String),
    NoSuchFile(String),
    Folder(String),
    CannotBeRead(String),
}

impl fmt::Display for WrongCall {
    ghost use Rattle.std.specs.Prelude.{Some};
    ghost use Rattle.convert.specs.Words.{wrong_call_words};

    ghost output = { λ wrong. Some (wrong_call_words wrong) };

    fn fmt<W: fmt::Write>(&self, f: &mut fmt::Formatter<W>) -> fmt::Result {
        match self {
            WrongCall::NotText => f.write_str("convert: an argument is not text in UTF-8"),
            WrongCall::WrongNumber => f.write_str(
                "convert: expected two file names, or --check and one",
            ),
            WrongCall::UnknownOption(word) => {
                write!(f, "convert: unknown option: {word} (see ./convert --help)")
            }
            WrongCall::NoSuchFile(path) => write!(f, "convert: no such file: {path}"),
            WrongCall::Folder(path) => write!(f, "convert: a folder, not a file: {path}"),
            WrongCall::CannotBeRead(path) => write!(f, "convert: cannot be read: {path}"),
        }
    }
}

// Reads the arguments, and opens the file that is to be read.
pub fn read_arguments(
    rt: &(impl Env + Files<File = File> + AllocGlobal),
) -> Result<Call, WrongCall> {
    let mut words = env::args(rt).map_err(|_| WrongCall::NotText)?.skip(1);
    let Some(first) = words.next() else {
        return Ok(Call::StandardInput);
    };
    let second = words.next();
    let third = words.next();
    if words.next().is_some() {
        return Err(WrongCall::WrongNumber);
    }
    let word = first.as_str();
    if word == "-h" || word == "--help" {
        return Ok(Call::Help);
    }
    if word == "--check" {
        return match (second, third) {
            (Some(path), None) => Ok(Call::Check(open(rt, path)?)),
            _ => Err(WrongCall::WrongNumber),
        };
    }
    if word == "--force" {
        return match (second, third) {
            (Some(old), Some(path)) => convert(rt, old, NewFile { path, force: true }),
            _ => Err(WrongCall::WrongNumber),
        };
    }
    if word.starts_with('-') {
        return Err(WrongCall::UnknownOption(first));
    }
    match (second, third) {
        (Some(path), None) => convert(rt, first, NewFile { path, force: false }),
        _ => Err(WrongCall::WrongNumber),
    }
}

// To convert a file.
fn convert(rt: &impl Files<File = File>, old: String, new: NewFile) -> Result<Call, WrongCall> {
    let old = open(rt, old)?;
    Ok(Call::Convert { old, new })
}

// Opens a file, and no folder.
fn open(rt: &impl Files<File = File>, path: String) -> Result<File, WrongCall> {
    match fs::metadata(rt, path.as_str()) {
        Err(_) => Err(WrongCall::NoSuchFile(path)),
        Ok(found) if found.is_dir() => Err(WrongCall::Folder(path)),
        Ok(_) => match fs::open(rt, path.as_str()) {
            Ok(file) => Ok(file),
            Err(_) => Err(WrongCall::CannotBeRead(path)),
        },
    }
}
