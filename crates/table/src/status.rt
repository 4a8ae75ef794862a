// The status of a station, as a value and as byte 0 of its line.
ghost use Rattle.std.specs.Prelude.{◌≡◌};
ghost use Rattle.table.specs.Status.{status_of, status_byte};

use lists::refusal::Refusal;
use std::fmt;

// The status of a station.
#[derive(Clone, Copy, Debug, PartialEq, Eq)]
pub enum Status {
    Live = 0,
    Crashed = 1,
    // It left because a station that suspects it told it.
    LeftTold = 2,
    // It left because it suspected all others.
    LeftAlone = 3,
}

impl Status {
    ghost use Rattle.table.specs.Status.{status_words};

    // What it says to people.
    pub fn words(self) -> &'static str
        ensures { result.now ≡ status_words self }
    {
        match self {
            Status::Live => "live",
            Status::Crashed => "crashed",
            Status::LeftTold => "left because told",
            Status::LeftAlone => "left because alone",
        }
    }
}

// The status that byte 0 stands for; refusal 3 where there is none.
impl TryFrom<u8> for Status {
    type Error = Refusal;

    ghost try_from_gives = { λ byte result. result ≡ status_of byte };

    fn try_from(byte: u8) -> Result<Self, Refusal> {
        match byte {
            0 => Ok(Status::Live),
            1 => Ok(Status::Crashed),
            2 => Ok(Status::LeftTold),
            3 => Ok(Status::LeftAlone),
            _ => Err(Refusal::LineRule),
        }
    }
}

// The byte of a status.
impl From<Status> for u8 {
    ghost from_gives = { λ status byte. byte ≡ status_byte status };

    fn from(status: Status) -> u8 {
        status as u8
    }
}

// What a status says to people.
impl fmt::Display for Status {
    ghost use Rattle.std.specs.Prelude.{Some};
    ghost use Rattle.table.specs.Status.{status_words};

    ghost output = { λ status. Some (status_words status) };

    fn fmt<W: fmt::Write>(&self, f: &mut fmt::Formatter<W>) -> fmt::Result {
        f.write_str(self.words())
    }
}
