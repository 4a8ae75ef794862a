// What a stored file is, and what is wrong with it.
ghost use Rattle.std.specs.Prelude.{◌≡◌, ◌+◌, ◌≤◌, ◌++◌, ◌==◌, Err, length, take, slice_index_or, IfOk, OnErr};
ghost use Rattle.saved.specs.Fields.{field_bytes};
ghost use Rattle.saved.specs.Order.{opening, opening_tag};
ghost use Rattle.std.specs.Result.{result_map_both};
ghost use Rattle.saved.specs.Convert.{converted};
ghost use Rattle.saved.specs.declared.edition.Edition.TheVariants.{One, Two};
ghost use Rattle.convert.specs.What.{reader_check, converter_check, fault_at, read_as, lacks_opening, judged, what_of};

use crate::place::{self, Form, Search};
use lists::refusal::Refusal;
use saved::edition::Edition;
use saved::{OPENING, SECOND, convert, first_pass, load};
use std::fmt;
use table::cells;

// The length of the greatest saved plant, that of 64 boards.
pub const GREATEST_SAVED: usize = 19 + 64 * (64 + 10);

// What is wrong with a file: it is longer than any saved plant, or refused, and at which byte that shows.
#[derive(Clone, Copy, Debug, PartialEq, Eq)]
pub enum Fault {
    TooLong,
    Refused { refusal: Refusal, place: usize },
}

// What a file is.
#[derive(Clone, Copy, Debug, PartialEq, Eq)]
pub enum What {
    SecondEdition,
    FirstEdition,
    WithoutOpening,
    Damaged(Fault),
}

impl fmt::Display for Fault {
    ghost use Rattle.std.specs.Prelude.{Some};
    ghost use Rattle.convert.specs.Words.{fault_words};

    ghost output = { λ fault. Some (fault_words fault) };

    fn fmt<W: fmt::Write>(&self, f: &mut fmt::Formatter<W>) -> fmt::Result {
        match self {
            Fault::TooLong => f.write_str(
                "longer than any saved plant, which has 4,755 bytes at most",
            ),
            Fault::Refused { refusal, place } => {
                write!(f, "refused {} at byte {place}: {refusal}", refusal.number())
            }
        }
    }
}

impl fmt::Display for What {
    ghost use Rattle.std.specs.Prelude.{Some};
    ghost use Rattle.convert.specs.Words.{what_words};

    ghost output = { λ what. Some (what_words what) };

    fn fmt<W: fmt::Write>(&self, f: &mut fmt::Formatter<W>) -> fmt::Result {
        match self {
            What::SecondEdition => f.write_str("edition 2"),
            What::FirstEdition => f.write_str("edition 1"),
            What::WithoutOpening => f.write_str(
                "saved by version 0.9 or 0.10: for edition 2 put the bytes 4 0 1 2 in front",
            ),
            What::Damaged(fault) => write!(f, "damaged: {fault}"),
        }
    }
}

// What a file is.
#[tactic(auto, unfolding(crate::specs::What::what_of))]
pub fn look_at(file: &[u8]) -> What
    ensures { result ≡ what_of file.now }
{
    match read_second(file) {
        Ok(()) => What::SecondEdition,
        Err(second) => look_further(file, second),
    }
}

// What a file is that is not of edition 2 for that fault.
fn look_further(file: &[u8], second: Fault) -> What
    ensures { let begins = slice_index_or file.now 0 0 == opening_tag in
        result ≡ judged (Err second) (read_as One file.now) (lacks_opening file.now) begins }
{
    match read_first(file) {
        Ok(()) => What::FirstEdition,
        Err(first) => look_at_damaged(file, second, first),
    }
}

// What a file is that is of no edition, by what is wrong with it as edition 2 and as edition 1.
fn look_at_damaged(file: &[u8], second: Fault, first: Fault) -> What
    ensures { let begins = slice_index_or file.now 0 0 == opening_tag in
        result ≡ judged (Err second) (Err first) (lacks_opening file.now) begins }
{
    if lacks_opening(file) {
        What::WithoutOpening
    } else if file.first().copied().unwrap_or(0) == OPENING {
        What::Damaged(second)
    } else {
        What::Damaged(first)
    }
}

// What is wrong with a file as edition 1.
fn read_first(file: &[u8]) -> Result<(), Fault>
    ensures { result ≡ read_as One file.now }
{
    let mut buffer = [0u8; GREATEST_SAVED];
    match convert_file(file, &mut buffer) {
        Ok(_) => Ok(()),
        Err(fault) => Err(fault),
    }
}

// Converts a file of edition 1: the front of the buffer is the file of edition 2, and the answer how many bytes.
pub fn convert_file(file: &[u8], buffer: &mut [u8; GREATEST_SAVED]) -> Result<usize, Fault>
    ensures answer { result_map_both (λ len. tt) (λ f. f) result ≡ read_as One file.now }
    ensures inside { IfOk result (λ len. len ≤ length buffer.new) }
    ensures written { IfOk result (λ len. take len buffer.new ≡ converted file.now) }
    ensures nothing_written { OnErr result (buffer.new ≡ buffer.old) }
{
    if GREATEST_SAVED < file.len() {
        return Err(Fault::TooLong);
    }
    match convert_into(file, buffer) {
        Ok(len) => Ok(len),
        Err(refusal) => Err(fault_at(Edition::One, file, refusal)),
    }
}

// The same of a file that is not longer than any saved plant.
fn convert_into(file: &[u8], buffer: &mut [u8; GREATEST_SAVED]) -> Result<usize, Refusal>
    ensures answer { result_map_both (λ len. tt) (λ r. r) result ≡ converter_check file.now }
    ensures inside { IfOk result (λ len. len ≤ length buffer.new) }
    ensures written { IfOk result (λ len. take len buffer.new ≡ converted file.now) }
    ensures nothing_written { OnErr result (buffer.new ≡ buffer.old) }
{
    let len = convert::converted_length(file)?;
    convert::convert(file, &mut buffer[..len])?;
    Ok(len)
}

// Reads a file of edition 2.
fn read_second(file: &[u8]) -> Result<(), Fault>
    ensures { result ≡ read_as Two file.now }
{
    if GREATEST_SAVED < file.len() {
        return Err(Fault::TooLong);
    }
    match check_second(file) {
        Ok(()) => Ok(()),
        Err(refusal) => Err(fault_at(Edition::Two, file, refusal)),
    }
}

// Whether the reader takes a file, into a table of the right length.
fn check_second(file: &[u8]) -> Result<(), Refusal>
    ensures { result ≡ reader_check file.now }
{
    let size = load::saved_size(file)?;
    let mut table = [0u8; cells::GREATEST_TABLE];
    load::load(file, &mut table[..cells::table_length(size)])?;
    Ok(())
}

// Whether a file is one of edition 2 without its opening.
#[tactic(auto, using(crate::proofs::WhatLaws::long_opened))]
fn lacks_opening(file: &[u8]) -> bool
    ensures { result ≡ lacks_opening file.now }
{
    if GREATEST_SAVED - 4 < file.len() {
        return false;
    }
    let mut whole = [0u8; GREATEST_SAVED];
    let len = write_opened(file, &mut whole);
    read_second(&whole[..len]).is_ok()
}

// Writes a file with the opening of edition 2 in front, and answers how many bytes these are.
fn write_opened(file: &[u8], whole: &mut [u8; GREATEST_SAVED]) -> usize
    requires { 4 + length file.now ≤ length whole.old }
    ensures long { result ≡ 4 + length file.now }
    ensures bytes { take result whole.new ≡ field_bytes opening ++ file.now }
{
    let len = 4 + file.len();
    whole[..4].copy_from_slice(&[OPENING, 0, 1, SECOND]);
    whole[4..len].copy_from_slice(file);
    len
}

// A refusal of a file that is read as that edition, and the byte where it shows.
fn fault_at(edition: Edition, file: &[u8], refusal: Refusal) -> Fault
    ensures { result ≡ fault_at edition file.now refusal }
{
    let size = match first_pass::open(file, edition) {
        Ok(opened) => opened.size,
        Err(_) => 0,
    };
    let search = Search::of(Form { edition, size }, refusal);
    Fault::Refused {
        refusal,
        place: place::place(file, search),
    }
}
