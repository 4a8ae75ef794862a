// What a file opens with, which tags are known, and in which order the fields stand. Refusals 21 and 22.
ghost use Rattle.std.specs.Prelude.{◌≡◌};
ghost use Rattle.saved.specs.Plant.{station_in};
ghost use Rattle.saved.specs.Reading.{field_value, Opens, behind_as};
ghost use Rattle.saved.specs.Order.{is_known, is_opening, follows};

use crate::edition::Edition;
use crate::fields::{Field, Fields};
use crate::{LINE, OPENING, SECOND, SIZE, TALLY};
use lists::refusal::Refusal;

// What a field is compared with: the tag of the one before and the station of the previous line, 0 where there is none: a sentinel, so that the
// first field needs no special case.
#[derive(Clone, Copy)]
pub struct Previous {
    pub tag: u8,
    pub station: u8,
}

// Before the first field, and behind the opening.
pub const NOTHING_BEFORE: Previous = Previous { tag: 0, station: 0 };

// Whether a file opens as its edition does. What is left to read are the fields behind the opening, which edition 1 has not. Refusal 18.
pub(crate) fn opens(edition: Edition, fields: &mut Fields) -> Result<bool, Refusal>
    ensures { Opens edition fields.old.rest.now result fields.new.rest.now }
{
    match edition {
        Edition::One => Ok(true),
        Edition::Two => match fields.next()? {
            Some(field) => Ok(is_opening(field)),
            None => Ok(false),
        },
    }
}

// Whether a tag is that of size, tally or line.
fn is_known(tag: u8) -> bool
    ensures { result ≡ is_known tag }
{
    (tag == SIZE) | (tag == TALLY) | (tag == LINE)
}

// The station of a line field; an empty one counts as station 0.
fn station_of(contents: &[u8]) -> u8
    ensures { result ≡ station_in contents.now }
{
    contents.first().copied().unwrap_or(0)
}

impl Previous {
    // Whether a field is in order and its tag known.
    pub fn allows(self, field: Field) -> bool
        ensures { result ≡ follows self (field_value field.entry) }
    {
        is_known(field.tag)
            & (self.tag <= field.tag)
            & ((field.tag != LINE) | (self.station <= station_of(field.contents)))
    }

    // What the next field is held against. In edition 1 it stays as it is, with nothing before: the fields stand in any order.
    pub fn behind(self, field: Field, edition: Edition) -> Previous
        ensures { result ≡ behind_as edition self (field_value field.entry) }
    {
        match edition {
            Edition::One => self,
            Edition::Two => Previous {
                tag: field.tag,
                station: if field.tag == LINE {
                    station_of(field.contents)
                } else {
                    self.station
                },
            },
        }
    }
}

// Whether a field is the opening.
pub fn is_opening(field: Field) -> bool
    ensures { result ≡ is_opening (field_value field.entry) }
{
    field.tag == OPENING && matches!(field.contents, [SECOND])
}
