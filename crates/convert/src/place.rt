// At which byte a refused file is at fault, for people. The library's answer decides; the place is looked for only behind it.
ghost use Rattle.std.specs.Prelude.{◌≡◌, ◌==◌, ◌<◌, true, length, slice_index_or};
ghost use Rattle.std.proofs.lemmas.List.Edits.{sets};
ghost use Rattle.table.specs.Sizes.{is_size};
ghost use Rattle.table.specs.Table.{line_start, table_length};
ghost use Rattle.table.specs.Fresh.{fresh_table};
ghost use Rattle.table.specs.Rules.{table_check};
ghost use Rattle.table.specs.declared.wiring.Wiring.TheVariants.{Cube};
ghost use Rattle.saved.specs.Reading.{field_value, line_length, line_as};
ghost use Rattle.convert.specs.Place.{search_for, order_search, is_line, lines_with, rules_check, search_with, place, ReadsWhole};

use lists::refusal::Refusal;
use saved::edition::Edition;
use saved::fields::{Field, Fields};
use saved::first_pass::Found;
use saved::order::{self, NOTHING_BEFORE, Previous};
use saved::{LINE, SIZE, lines};
use table::lent::TableMut;
use table::wiring::Wiring;
use table::{Station, cells, fresh, rules, sizes};

// The form of the lines of a file: its edition and size.
#[derive(Clone, Copy)]
pub struct Form {
    pub edition: Edition,
    pub size: u8,
}

// The lines that are looked for: of that form, and of no station that was seen.
#[derive(Clone, Copy)]
pub struct Lines {
    pub form: Form,
    pub seen: [bool; 64],
}

// What is looked for in the fields of a refused file, one after the other.
#[derive(Clone, Copy)]
pub enum Search {
    Opening,
    Order(Edition, Previous),
    SizeAndTally(Found),
    Size,
    Line(Lines),
    Rules(Form),
    Live,
    PastEnd,
}

// The byte at which the first field begins that the search stops at, or that goes past the end; the end of the file where there is none.
pub fn place(file: &[u8], mut search: Search) -> usize
    ensures { result ≡ place search file.now }
{
    let mut fields = Fields { rest: file };
    let mut at = 0;
    while let Some(field) = next_whole(&mut fields) {
        match search.with(field) {
            Ok(next) => search = next,
            Err(_) => return at,
        }
        at = file.len() - fields.rest.len();
    }
    at
}

// The next field, where it lies whole in the file.
fn next_whole<'a>(fields: &mut Fields<'a>) -> Option<Field<'a>>
    ensures { ReadsWhole fields.old.rest.now result fields.new.rest.now }
{
    match fields.next() {
        Ok(field) => field,
        Err(_) => None,
    }
}

impl Search {
    // What is looked for where a file was refused so.
    pub fn of(form: Form, refusal: Refusal) -> Search
        ensures { result ≡ search_for form refusal }
    {
        match refusal {
            Refusal::NoOpening => Search::Opening,
            Refusal::FieldOrder => Search::of_order(form.edition),
            Refusal::SizeOrTallyField => Search::SizeAndTally(Found {
                size: None,
                tally: None,
            }),
            Refusal::SizeOutOfRange => Search::Size,
            Refusal::LineField => Search::Line(Lines {
                form,
                seen: [false; 64],
            }),
            Refusal::LineRule => Search::Rules(form),
            Refusal::RoundNotClosed => Search::Live,
            _ => Search::PastEnd,
        }
    }

    // What is looked for where a field is out of order or unknown: in edition 2 that stands behind the opening.
    fn of_order(edition: Edition) -> Search
        ensures { result ≡ order_search edition }
    {
        match edition {
            Edition::One => Search::Order(Edition::One, NOTHING_BEFORE),
            Edition::Two => Search::Opening,
        }
    }

    // With one field more, or the refusal that shows at it.
    fn with(self, field: Field) -> Result<Search, Refusal>
        ensures { result ≡ search_with self (field_value field.entry) }
    {
        match self {
            Search::Opening if order::is_opening(field) => {
                Ok(Search::Order(Edition::Two, NOTHING_BEFORE))
            }
            Search::Opening => Err(Refusal::NoOpening),
            Search::Order(edition, before) if before.allows(field) => {
                Ok(Search::Order(edition, before.behind(field, edition)))
            }
            Search::Order(..) => Err(Refusal::FieldOrder),
            Search::SizeAndTally(found) => Ok(Search::SizeAndTally(found.with(field)?)),
            Search::Size if field.tag == SIZE => Err(Refusal::SizeOutOfRange),
            Search::Line(lines) if field.tag == LINE => Ok(Search::Line(lines.with(
                field.contents,
            )?)),
            Search::Rules(form) if field.tag == LINE => {
                form.check_rules(field.contents)?;
                Ok(self)
            }
            Search::Live if field.tag == LINE && is_live(field.contents) => {
                Err(Refusal::RoundNotClosed)
            }
            _ => Ok(self),
        }
    }
}

impl Lines {
    // With one line more, if it is one of the form, and its station was not seen.
    fn with(mut self, contents: &[u8]) -> Result<Lines, Refusal>
        ensures { result ≡ lines_with self contents.now }
    {
        let station = contents.first().copied().unwrap_or(0) as usize;
        let seen = self.seen.get(station).copied().unwrap_or(true);
        if !self.form.is_line(contents) || seen {
            return Err(Refusal::LineField);
        }
        self.seen[station] = true;
        Ok(self)
    }
}

impl Form {
    // Whether the contents of a line field have the length and the station of a line.
    fn is_line(self, contents: &[u8]) -> bool
        ensures { result ≡ is_line self contents.now }
    {
        match contents {
            [station, line @ ..] => {
                line.len() == self.edition.line_length(self.size) && *station < self.size
            }
            [] => false,
        }
    }

    // Whether a line obeys the line rules: whether a fresh table that has it is accepted.
    #[tactic(auto, using(crate::proofs::PlaceLaws::line_judged, saved::proofs::Loading::table_fits))]
    fn check_rules(self, contents: &[u8]) -> Result<(), Refusal>
        ensures { result ≡ rules_check self contents.now }
    {
        let [station, line @ ..] = contents else {
            return Err(Refusal::LineRule);
        };
        if !self.is_line(contents) {
            return Err(Refusal::LineRule);
        }
        if !sizes::is_size(self.size as usize) {
            return Err(Refusal::SizeOutOfRange);
        }
        let mut own = [0u8; cells::GREATEST_TABLE];
        let own = &mut own[..cells::table_length(self.size)];
        self.check_in_fresh(Station(*station), line, own)
    }

    // The same of a station's line, by a buffer for the fresh table.
    #[tactic(auto, using(crate::proofs::PlaceLaws::right_shape, crate::proofs::PlaceLaws::made_fresh))]
    fn check_in_fresh(self, i: Station, line: &[u8], own: &mut [u8]) -> Result<(), Refusal>
        requires is_a_size { is_size self.size ≡ true }
        requires is_a_station { i.0 < self.size }
        requires long { length own.old ≡ table_length self.size }
        requires width { length line.now ≡ line_length self.edition self.size }
        ensures { let lines = fresh_table self.size in
            result ≡ table_check Cube self.size (sets lines (line_start self.size i.0) (line_as self.edition line.now)) }
    {
        fresh::fresh_table(self.size as usize, own)?;
        let table = &mut TableMut {
            wiring: Wiring::Cube,
            n: self.size,
            end: Wiring::Cube.end_byte(self.size),
            bytes: own,
        };
        lines::put_line(table, self.edition, i, line);
        rules::check_table(Wiring::Cube, self.size as usize, own)
    }
}

// Whether a line is that of a live board.
fn is_live(contents: &[u8]) -> bool
    ensures { result ≡ (slice_index_or contents.now 1 1 == 0) }
{
    contents.get(1).copied().unwrap_or(1) == 0
}
