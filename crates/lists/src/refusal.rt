// Refusals: why a call was refused, by name and by number.
ghost use Rattle.std.specs.Prelude.{◌≡◌};
ghost use Rattle.std.specs.Result.{result_unwrap_or};
ghost use Rattle.lists.specs.Refusal.{number_of, refusal_words, refusal_with, number_of_result};

use std::error::Error;
use std::fmt;

// Why a call was refused, with its number in the refusal list.
#[derive(Clone, Copy, Debug, PartialEq, Eq)]
pub enum Refusal {
    SizeOutOfRange = 1,
    TableLength = 2,
    LineRule = 3,
    RoundNotClosed = 4,
    ScheduleLength = 5,
    SheetLength = 6,
    TallyFull = 7,
    UnknownKind = 8,
    NoSuchStation = 9,
    NotLive = 10,
    PassFinished = 11,
    NoSuchLevel = 12,
    ListLength = 13,
    NoResult = 14,
    TooManyResults = 15,
    LastGranted = 16,
    NoneLive = 17,
    FieldPastEnd = 18,
    SizeOrTallyField = 19,
    LineField = 20,
    NoOpening = 21,
    FieldOrder = 22,
    ReportTooShort = 23,
    NoSuchWiring = 24,
    LineLength = 25,
}

impl Refusal {
    // Its number in the refusal list.
    pub fn number(self) -> u8
        ensures { result ≡ number_of self }
    {
        self as u8
    }

    // What it says to people.
    pub fn words(self) -> &'static str
        ensures { result.now ≡ refusal_words self }
    {
        match self {
            Refusal::SizeOutOfRange => "a plant has 2 to 64 boards",
            Refusal::TableLength => "the table's length is not n(n + 6)",
            Refusal::LineRule => "a line breaks a line rule",
            Refusal::RoundNotClosed =>
                "every live board has finished its pass, but the round is not closed",
            Refusal::ScheduleLength => "the schedule has an odd number of bytes",
            Refusal::SheetLength => "the run sheet is not twice as long as the schedule",
            Refusal::TallyFull => "the count of rounds or of tests is at its limit, 4,294,967,295",
            Refusal::UnknownKind => "the kind of the entry is not 1, 2 or 3",
            Refusal::NoSuchStation =>
                "no board has this number: boards are numbered from 0 to n - 1",
            Refusal::NotLive => "this board is not live",
            Refusal::PassFinished => "this board has already finished its pass in this round",
            Refusal::NoSuchLevel => "there is no such level: levels go from 1 to d",
            Refusal::ListLength => "the list or buffer for the answer has the wrong length",
            Refusal::NoResult => "there are no results to compute figures from",
            Refusal::TooManyResults =>
                "there are more than 4,096 results, or the totals are higher than 4,096 results can give",
            Refusal::LastGranted => "the last granted number is neither a board's number nor 255",
            Refusal::NoneLive => "no board is live",
            Refusal::FieldPastEnd => "the file is cut off: a field or its head goes past the end",
            Refusal::SizeOrTallyField =>
                "the field with the size or the tally is missing, appears twice or has the wrong length",
            Refusal::LineField =>
                "a board's line in the file is missing, appears twice, has the wrong length or names no board",
            Refusal::NoOpening =>
                "the file does not begin as edition 2 does; if it is of edition 1, convert it first",
            Refusal::FieldOrder => "a field is out of order or has an unknown tag",
            Refusal::ReportTooShort => "the buffer for the report has fewer than 4n(n + 6) bytes",
            Refusal::NoSuchWiring => "the wiring is neither 1, the cube, nor 2, the ring",
            Refusal::LineLength => "the length of the board's line is not n + 6",
        }
    }

    // The refusal with a number of the refusal list.
    #[tactic(auto, unfolding(crate::specs::Refusal::refusal_with))]
    pub fn with_number(number: usize) -> Option<Refusal>
        ensures { result ≡ refusal_with number }
    {
        match number {
            1 => Some(Refusal::SizeOutOfRange),
            2 => Some(Refusal::TableLength),
            3 => Some(Refusal::LineRule),
            4 => Some(Refusal::RoundNotClosed),
            5 => Some(Refusal::ScheduleLength),
            6 => Some(Refusal::SheetLength),
            7 => Some(Refusal::TallyFull),
            8 => Some(Refusal::UnknownKind),
            9 => Some(Refusal::NoSuchStation),
            10 => Some(Refusal::NotLive),
            11 => Some(Refusal::PassFinished),
            12 => Some(Refusal::NoSuchLevel),
            13 => Some(Refusal::ListLength),
            14 => Some(Refusal::NoResult),
            15 => Some(Refusal::TooManyResults),
            16 => Some(Refusal::LastGranted),
            17 => Some(Refusal::NoneLive),
            18 => Some(Refusal::FieldPastEnd),
            19 => Some(Refusal::SizeOrTallyField),
            20 => Some(Refusal::LineField),
            21 => Some(Refusal::NoOpening),
            22 => Some(Refusal::FieldOrder),
            23 => Some(Refusal::ReportTooShort),
            24 => Some(Refusal::NoSuchWiring),
            25 => Some(Refusal::LineLength),
            _ => None,
        }
    }
}

// What a refusal says to people.
impl fmt::Display for Refusal {
    ghost use Rattle.std.specs.Prelude.{Some};
    ghost use Rattle.lists.specs.Refusal.{refusal_words};

    ghost output = { λ refusal. Some (refusal_words refusal) };

    fn fmt<W: fmt::Write>(&self, f: &mut fmt::Formatter<W>) -> fmt::Result {
        f.write_str(self.words())
    }
}

impl Error for Refusal {}

// An answer as C has it: its number, 0 where it is not refused, and its value, or where it is refused what is left in the value's place.
pub fn parts<T: Copy>(answer: Result<T, Refusal>, refused: T) -> (u8, T)
    ensures number { result.0 ≡ number_of_result answer }
    ensures value_or_refused { result.1 ≡ result_unwrap_or answer refused }
{
    match answer {
        Ok(value) => (0, value),
        Err(refusal) => (refusal.number(), refused),
    }
}

// The number of a check: 0 where it refuses nothing.
pub fn number_of(check: Result<(), Refusal>) -> u8
    ensures { result ≡ number_of_result check }
{
    parts(check, ()).0
}
