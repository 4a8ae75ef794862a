// What an input holds: lines, the size, the entries. The call is `parse`; `read_size` and `read_station` read the numbers of arguments too.
ghost use Rattle.std.specs.Prelude.{◌≡◌, [], ◌∷◌, ◌++◌, ◌+◌, ◌-◌, ◌*◌, ◌≤◌, ◌<◌, length, take, drop};
ghost use Rattle.std.specs.Prelude.{None, Some, IfSome, option_map, if◌then◌else◌, nat_lt};
ghost use Rattle.std.proofs.lemmas.List.Edits.{sets};
ghost use Rattle.plant.specs.Kind.{kind_byte};
ghost use Rattle.std.specs.List.{slice_split};
ghost use Rattle.input.specs.Input.{is_line_feed, lines, is_digit, size_of, station_of, kind_of, entry_in_line, pair_of, room_for, read_into};
ghost use Rattle.input.specs.Fault.{parsed_of, further_fault};

use crate::fault::{self, Expected, Fault, Found};
use plant::entry::Entry;
use plant::kind::Kind;
use std::error::Error;
use std::fmt;
use table::Station;

// What was read: the size, and how many entries. Not the part of the schedule that they fill: `parsed_of` names this answer whole, and a reference
// is also a place in memory, which no definition over the input names.
#[derive(Clone, Copy, Debug, PartialEq, Eq)]
pub struct Parsed {
    pub size: usize,
    pub entries: usize,
}

// What is read before a first line that is no size.
const NOTHING: Parsed = Parsed {
    size: 0,
    entries: 0,
};

// The first unreadable line: its number, from 1, what is wrong in it, and what was read before it.
#[derive(Clone, Copy, Debug, PartialEq, Eq)]
pub struct Unread {
    pub line: usize,
    pub fault: Fault,
    pub before: Parsed,
}

impl fmt::Display for Unread {
    ghost use Rattle.std.specs.Prelude.{Some};
    ghost use Rattle.input.specs.Words.{unread_words};

    ghost output = { λ unread. Some (unread_words unread) };

    fn fmt<W: fmt::Write>(&self, f: &mut fmt::Formatter<W>) -> fmt::Result {
        write!(f, "unread {}: {}", self.line, self.fault)
    }
}

impl Error for Unread {}

// Reads the whole input. The entries before the first unreadable line go into the schedule, two bytes each, and its rest is unchanged. An
// entry for which the schedule has no room counts as unreadable.
pub fn parse(input: &[u8], schedule: &mut [u8]) -> Result<Parsed, Unread>
    ensures answer { result ≡ parsed_of input.now (read_into schedule.old input.now) }
    ensures schedule_after { let entries = (read_into schedule.old input.now).schedule in
        schedule.new ≡ sets schedule.old 0 entries }
{
    if input.is_empty() {
        return Err(Unread {
            line: 1,
            fault: Fault {
                found: Found::NoInput,
                expected: Expected::Size,
            },
            before: NOTHING,
        });
    }
    let room = room_for(schedule.len());
    let text = without_last_feed(input);
    let mut lines = text.split(|b| *b == b'\n');
    let first = lines.next().unwrap_or(&[]);
    let Some(size) = read_size(first) else {
        return Err(Unread {
            line: 1,
            fault: fault::size_fault(first),
            before: NOTHING,
        });
    };
    // Counted by hand: it is the answer, and only lines that are taken count.
    let mut entries: usize = 0;
    for line in lines {
        let Some(entry) = entry_with_room(entries, room, line) else {
            return Err(Unread {
                line: entries + 2,
                fault: further_fault(line),
                before: Parsed { size, entries },
            });
        };
        put_entry(schedule, entries, entry);
        entries += 1;
    }
    Ok(Parsed { size, entries })
}

// The input without the line feed at its end, if it has one.
fn without_last_feed(input: &[u8]) -> &[u8]
    requires { 0 < length input.now }
    ensures { slice_split is_line_feed result.now ≡ lines input.now }
{
    input.strip_suffix(b"\n").unwrap_or(input)
}

// How many entries a schedule of len bytes takes.
fn room_for(len: usize) -> usize
    ensures { result ≡ room_for len }
{
    (len / 2).min(4096)
}

// Writes entry k of a schedule. By its place: of what is written through `chunks_exact_mut`, or through a cursor that `split_first_chunk_mut`
// moves on, no proof knows anything after the loop.
fn put_entry(schedule: &mut [u8], k: usize, entry: Entry)
    requires { 2 * k + 2 ≤ length schedule.old }
    ensures entry_written { take (2 * k + 2) schedule.new
        ≡ take (2 * k) schedule.old ++ (kind_byte entry.kind ∷ entry.station.0 ∷ []) }
    ensures rest_unchanged { drop (2 * k + 2) schedule.new ≡ drop (2 * k + 2) schedule.old }
{
    schedule[2 * k..2 * k + 2].copy_from_slice(&entry.bytes());
}

// The entry of a line, where k entries were read and there is room for one more.
fn entry_with_room(k: usize, room: usize, line: &[u8]) -> Option<Entry>
    ensures { option_map pair_of result ≡ if nat_lt k room then entry_in_line line.now else None }
{
    if k < room { read_entry(line) } else { None }
}

// What is wrong in a line behind the first that counts as unreadable. One that is an entry is one too many.
fn further_fault(line: &[u8]) -> Fault
    ensures { result ≡ further_fault line.now }
{
    if read_entry(line).is_some() {
        return Fault {
            found: Found::EntryTooMany,
            expected: Expected::InputEnd,
        };
    }
    fault::entry_fault(line)
}

// The entry of a line, if it is one.
#[tactic(auto, using(crate::proofs::ReadLaws::entry_read))]
fn read_entry(line: &[u8]) -> Option<Entry>
    ensures { option_map pair_of result ≡ entry_in_line line.now }
{
    let [letter, b' ', digits @ ..] = line else {
        return None;
    };
    let kind = kind_of(*letter)?;
    let station = read_station(digits)?;
    Some(Entry {
        kind,
        station: Station(station as u8),
    })
}

// The kind of a letter, if it is T, L or C. Not by `TryFrom`, which `Kind` has for the byte of a schedule.
#[tactic(auto, unfolding(crate::specs::Input::kind_of))]
pub(crate) fn kind_of(letter: u8) -> Option<Kind>
    ensures { option_map kind_byte result ≡ kind_of letter }
{
    match letter {
        b'T' => Some(Kind::Turn),
        b'L' => Some(Kind::LateTurn),
        b'C' => Some(Kind::Crash),
        _ => None,
    }
}

// The size of a line, of one to three digits and nothing else; of one or two it is read as a station is. Whether a plant has so many boards is not
// asked.
#[tactic(auto, unfolding(crate::specs::Input::digits_value, crate::specs::Input::digits_from))]
pub fn read_size(line: &[u8]) -> Option<usize>
    ensures { result ≡ size_of line.now }
{
    match line {
        [hundreds, tens, ones] => {
            Some(100 * digit(*hundreds)? + 10 * digit(*tens)? + digit(*ones)?)
        }
        _ => read_station(line),
    }
}

// The station of one or two digits and nothing else. Whether a plant has it is not asked.
#[tactic(auto, unfolding(crate::specs::Input::digits_value, crate::specs::Input::digits_from))]
pub fn read_station(digits: &[u8]) -> Option<usize>
    ensures value { result ≡ station_of digits.now }
    ensures fits_a_byte { IfSome result (λ station. station ≤ 99) }
{
    match digits {
        [ones] => digit(*ones),
        [tens, ones] => Some(10 * digit(*tens)? + digit(*ones)?),
        _ => None,
    }
}

// The value of a byte that is a digit.
fn digit(byte: u8) -> Option<usize>
    ensures value { result ≡ if is_digit byte then Some (byte - 48) else None }
    ensures at_most_nine { IfSome result (λ d. d ≤ 9) }
{
    if byte.is_ascii_digit() {
        Some((byte - b'0') as usize)
    } else {
        None
    }
}
