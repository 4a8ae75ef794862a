// The kinds of an entry, as values and as the bytes of a schedule.
ghost use Rattle.std.specs.Prelude.{◌≡◌};
ghost use Rattle.plant.specs.Kind.{kind_byte, kind_of};

use lists::refusal::Refusal;
use std::fmt;

// The kind of an entry.
#[derive(Clone, Copy, Debug, PartialEq, Eq)]
pub enum Kind {
    // A turn whose replies come in time.
    Turn = 1,
    // A turn whose reply comes late.
    LateTurn = 2,
    // The station crashes.
    Crash = 3,
}

// The kind that a byte of a schedule stands for; refusal 8 where there is none.
impl TryFrom<u8> for Kind {
    type Error = Refusal;

    ghost try_from_gives = { λ byte result. result ≡ kind_of byte };

    fn try_from(byte: u8) -> Result<Self, Refusal> {
        match byte {
            1 => Ok(Kind::Turn),
            2 => Ok(Kind::LateTurn),
            3 => Ok(Kind::Crash),
            _ => Err(Refusal::UnknownKind),
        }
    }
}

// The byte of a kind in a schedule.
impl From<Kind> for u8 {
    ghost from_gives = { λ kind byte. byte ≡ kind_byte kind };

    fn from(kind: Kind) -> u8 {
        kind as u8
    }
}

// What a kind says to people.
impl fmt::Display for Kind {
    ghost use Rattle.std.specs.Prelude.{Some};
    ghost use Rattle.plant.specs.Kind.{kind_words};

    ghost output = { λ kind. Some (kind_words kind) };

    fn fmt<W: fmt::Write>(&self, f: &mut fmt::Formatter<W>) -> fmt::Result {
        f.write_str(match self {
            Kind::Turn => "turn",
            Kind::LateTurn => "turn whose reply comes late",
            Kind::Crash => "crash",
        })
    }
}
