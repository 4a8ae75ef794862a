// What is wrong in a line that cannot be read: what is found at its first wrong place, and what is expected there.
ghost use Rattle.std.specs.Prelude.{◌≡◌, ◌<◌, false};
ghost use Rattle.std.specs.Fmt.{digit_glyph};
ghost use Rattle.input.specs.Words.{two_digits};
ghost use Rattle.input.specs.Fault.{found_byte, found_at, digits_fault, size_fault, behind_letter, entry_fault};

use crate::reading;
use lists::bytes;
use std::fmt;

// What is found at the first wrong place.
#[derive(Clone, Copy, Debug, PartialEq, Eq)]
pub enum Found {
    NoInput,
    NoLine,
    LineEnd,
    Tab,
    CarriageReturn,
    ByteOrderMark,
    Space,
    Digit,
    DigitTooMany,
    LowerCaseLetter,
    Character(u8),
    Byte(u8),
    EntryTooMany,
}

// What is expected there.
#[derive(Clone, Copy, Debug, PartialEq, Eq)]
pub enum Expected {
    Size,
    Entry,
    Letter,
    Space,
    Digit,
    LineEnd,
    InputEnd,
}

// Both.
#[derive(Clone, Copy, Debug, PartialEq, Eq)]
pub struct Fault {
    pub found: Found,
    pub expected: Expected,
}

impl fmt::Display for Found {
    ghost use Rattle.std.specs.Prelude.{Some};
    ghost use Rattle.input.specs.Words.{found_words};

    ghost output = { λ found. Some (found_words found) };

    fn fmt<W: fmt::Write>(&self, f: &mut fmt::Formatter<W>) -> fmt::Result {
        f.write_str(self.front())?;
        match *self {
            Found::Character(byte) => write!(f, "{}", char::from(byte)),
            Found::Byte(byte) => write!(f, "{byte:02x} (hexadecimal)"),
            _ => Ok(()),
        }
    }
}

impl Found {
    ghost use Rattle.std.specs.Prelude.{◌≡◌, ◌≤◌, length};
    ghost use Rattle.std.proofs.lemmas.List.Edits.{sets};
    ghost use Rattle.input.specs.Words.{found_front, found_named, found_words};

    // What it says to people, up to the byte that it names.
    fn front(self) -> &'static str
        ensures text { result.now ≡ found_front self }
        ensures few { length result.now ≤ 20 }
    {
        match self {
            Found::NoInput => "an empty input",
            Found::NoLine => "an empty line",
            Found::LineEnd => "the end of the line",
            Found::Tab => "a tab",
            Found::CarriageReturn => "a carriage return",
            Found::ByteOrderMark => "a byte order mark",
            Found::Space => "a space",
            Found::Digit => "a digit",
            Found::DigitTooMany => "a digit too many",
            Found::LowerCaseLetter => "a lower case letter",
            Found::Character(_) => "the character ",
            Found::Byte(_) => "the byte ",
            Found::EntryTooMany => "a 4,097th entry",
        }
    }

    // Writes its words from the front of a buffer; answers how many bytes they are.
    fn write_words(self, buffer: &mut [u8]) -> usize
        ensures written { buffer.new ≡ sets buffer.old 0 (found_words self) }
        ensures count { result ≡ length (found_words self) }
        ensures few { result ≤ 36 }
    {
        let front = self.front().as_bytes();
        bytes::write_at(buffer, 0, front);
        front.len() + self.write_named(buffer, front.len())
    }

    // Writes the byte that it names, from a place on; answers how many bytes that takes.
    fn write_named(self, buffer: &mut [u8], at: usize) -> usize
        requires { at ≤ 20 }
        ensures written { buffer.new ≡ sets buffer.old at (found_named self) }
        ensures count { result ≡ length (found_named self) }
        ensures few { result ≤ 16 }
    {
        match self {
            Found::Character(byte) => {
                let mut utf8 = [0; 4];
                let text = char::from(byte).encode_utf8(&mut utf8).as_bytes();
                bytes::write_at(buffer, at, text);
                text.len()
            }
            Found::Byte(byte) => {
                bytes::write_at(buffer, at, &two_digits(byte));
                bytes::write_at(buffer, at + 2, HEXADECIMAL.as_bytes());
                2 + HEXADECIMAL.len()
            }
            _ => 0,
        }
    }
}

// What is said behind a byte in two digits.
const HEXADECIMAL: &str = " (hexadecimal)";

// A byte in two hexadecimal digits.
#[tactic(auto, using(crate::proofs::DigitLaws::two_glyphs))]
fn two_digits(byte: u8) -> [u8; 2]
    ensures { result ≡ two_digits byte }
{
    [digit(byte / 16), digit(byte % 16)]
}

// A hexadecimal digit.
fn digit(value: u8) -> u8
    requires { value < 16 }
    ensures { result ≡ digit_glyph false value }
{
    if value < 10 {
        b'0' + value
    } else {
        b'a' + (value - 10)
    }
}

impl fmt::Display for Expected {
    ghost use Rattle.std.specs.Prelude.{Some};
    ghost use Rattle.input.specs.Words.{expected_words};

    ghost output = { λ expected. Some (expected_words expected) };

    fn fmt<W: fmt::Write>(&self, f: &mut fmt::Formatter<W>) -> fmt::Result {
        f.write_str(self.words())
    }
}

impl Expected {
    ghost use Rattle.std.specs.Prelude.{◌≡◌, ◌≤◌, length};
    ghost use Rattle.input.specs.Words.{expected_words};

    // What it says to people.
    fn words(self) -> &'static str
        ensures text { result.now ≡ expected_words self }
        ensures few { length result.now ≤ 48 }
    {
        match self {
            Expected::Size => "the size (one to three digits)",
            Expected::Entry => "an entry (T, L or C, a space, one or two digits)",
            Expected::Letter => "T, L or C",
            Expected::Space => "a space",
            Expected::Digit => "a digit",
            Expected::LineEnd => "the end of the line",
            Expected::InputEnd => "the end of the input (4,096 entries at most)",
        }
    }
}

impl fmt::Display for Fault {
    ghost use Rattle.std.specs.Prelude.{Some};
    ghost use Rattle.input.specs.Words.{fault_words};

    ghost output = { λ fault. Some (fault_words fault) };

    fn fmt<W: fmt::Write>(&self, f: &mut fmt::Formatter<W>) -> fmt::Result {
        write!(f, "{}{WHERE}{}{IS_EXPECTED}", self.found, self.expected)
    }
}

// What is said between and behind both.
const WHERE: &str = " where ";

const IS_EXPECTED: &str = " is expected";

impl Fault {
    ghost use Rattle.std.specs.Prelude.{◌≡◌, ◌<◌, length};
    ghost use Rattle.std.proofs.lemmas.List.Edits.{sets};
    ghost use Rattle.input.specs.Words.{fault_words};

    // Writes its words from the front of a buffer; past its end nothing is written. A buffer of 128 bytes holds them all, and a byte more.
    pub fn write_words(self, buffer: &mut [u8])
        ensures written { buffer.new ≡ sets buffer.old 0 (fault_words self) }
        ensures few { length (fault_words self) < 128 }
    {
        let found = self.found.write_words(buffer);
        let expected = self.expected.words().as_bytes();
        let behind = found + WHERE.len();
        bytes::write_at(buffer, found, WHERE.as_bytes());
        bytes::write_at(buffer, behind, expected);
        bytes::write_at(buffer, behind + expected.len(), IS_EXPECTED.as_bytes());
    }
}

// What is wrong in a first line that is no size.
#[tactic(auto, unfolding(crate::specs::Fault::size_fault))]
pub(crate) fn size_fault(line: &[u8]) -> Fault
    ensures { result ≡ size_fault line.now }
{
    if line.is_empty() {
        return Fault {
            found: Found::NoLine,
            expected: Expected::Size,
        };
    }
    digits_fault(3, Expected::Size, line)
}

// What is wrong in a further line that is no entry.
#[tactic(auto, unfolding(crate::specs::Fault::entry_fault))]
pub(crate) fn entry_fault(line: &[u8]) -> Fault
    ensures { result ≡ entry_fault line.now }
{
    let [letter, rest @ ..] = line else {
        return Fault {
            found: Found::NoLine,
            expected: Expected::Entry,
        };
    };
    if reading::kind_of(*letter).is_none() {
        return Fault {
            found: found_at(line),
            expected: Expected::Letter,
        };
    }
    behind_letter(rest)
}

// What is wrong behind an entry's letter.
fn behind_letter(rest: &[u8]) -> Fault
    ensures { result ≡ behind_letter rest.now }
{
    if rest.starts_with(b" ") {
        digits_fault(2, Expected::Digit, &rest[1..])
    } else {
        Fault {
            found: found_at(rest),
            expected: Expected::Space,
        }
    }
}

// What is wrong in what is not one to `most` digits, of which the first is called so.
#[tactic(auto, unfolding(crate::specs::Fault::digits_fault))]
fn digits_fault(most: usize, first: Expected, text: &[u8]) -> Fault
    ensures { result ≡ digits_fault most first text.now }
{
    let digits = text.iter().take_while(|b| b.is_ascii_digit()).count();
    if digits == 0 {
        return Fault {
            found: found_at(text),
            expected: first,
        };
    }
    let found = if digits <= most {
        found_at(&text[digits..])
    } else {
        Found::DigitTooMany
    };
    Fault {
        found,
        expected: Expected::LineEnd,
    }
}

// What the rest of a line begins with.
#[tactic(auto, unfolding(crate::specs::Fault::found_at))]
fn found_at(rest: &[u8]) -> Found
    ensures { result ≡ found_at rest.now }
{
    let Some(byte) = rest.first() else {
        return Found::LineEnd;
    };
    let mark = rest.starts_with(b"\xef\xbb\xbf")
        || rest.starts_with(b"\xff\xfe")
        || rest.starts_with(b"\xfe\xff");
    if mark {
        Found::ByteOrderMark
    } else {
        found_byte(*byte)
    }
}

// What a byte is, for people.
#[tactic(auto, unfolding(crate::specs::Fault::found_byte))]
fn found_byte(byte: u8) -> Found
    ensures { result ≡ found_byte byte }
{
    match byte {
        b'\t' => Found::Tab,
        b'\r' => Found::CarriageReturn,
        b' ' => Found::Space,
        b'0'..=b'9' => Found::Digit,
        b'a'..=b'z' => Found::LowerCaseLetter,
        b'!'..=b'~' => Found::Character(byte),
        _ => Found::Byte(byte),
    }
}
