// Saved plants: a writer and a reader of table and tally, as tagged fields, in edition 2; and a converter of files of edition 1.
//
// The calls are save::save, load::load, load::saved_size, convert::convert and convert::converted_length. None has a `requires`.
#![tactic(auto)]

mod bytes;
pub mod claims;
pub mod convert;
pub mod edition;
pub mod fields;
pub mod first_pass;
pub mod lines;
pub mod load;
pub mod order;
pub mod save;

use plant::Tally;

// What the reader reads of a saved plant besides its table.
#[derive(Clone, Copy, Default)]
pub struct Loaded {
    pub size: u8,
    pub tally: Tally,
}

// The tags of the fields. They are bytes of the file, and no enum: a field may have any tag, and those that are not known are refused.
pub const SIZE: u8 = 1;

pub const TALLY: u8 = 2;

pub const LINE: u8 = 3;

pub const OPENING: u8 = 4;

// The contents of the opening, which name edition 2.
pub const SECOND: u8 = 2;
