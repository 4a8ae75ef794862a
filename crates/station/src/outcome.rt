// What an entry did, as a value and as the two bytes of a line of the run sheet.
ghost use Rattle.std.specs.Prelude.{◌≡◌};
ghost use Rattle.station.specs.Outcome.{tested_byte, outcome_byte, outcome_words, outcome_with};

use std::fmt;
use table::Station;

// What an entry did, with the tested station where it made a test. The order is that of the outcomes' numbers, so that the number costs
// nothing: with an enum of its own for the tests runs are slower.
#[derive(Clone, Copy)]
pub enum Outcome {
    // No distance was due: the pass is finished.
    PassFinished,
    // Tester and tested station joined their rows.
    Exchanged(Station),
    // The tester left, because the tested station suspects it.
    Told(Station),
    // No reply came in time: the tester suspects the tested station.
    NoReply(Station),
    // The station crashed.
    Crashed,
    // The tested station left, because the tester suspects it.
    TestedTold(Station),
}

impl Outcome {
    // Byte 1 of a line of the sheet: the number of the tested station, or 255 where none was tested.
    pub fn tested_byte(self) -> u8
        ensures { result ≡ tested_byte self }
    {
        match self {
            Outcome::PassFinished | Outcome::Crashed => 255,
            Outcome::Exchanged(j)
            | Outcome::Told(j)
            | Outcome::NoReply(j)
            | Outcome::TestedTold(j) => j.0,
        }
    }

    // Byte 2 of a line of the sheet: the outcome's number.
    pub fn outcome_byte(self) -> u8
        ensures { result ≡ outcome_byte self }
    {
        match self {
            Outcome::PassFinished => 0,
            Outcome::Exchanged(_) => 1,
            Outcome::Told(_) => 2,
            Outcome::NoReply(_) => 3,
            Outcome::Crashed => 4,
            Outcome::TestedTold(_) => 5,
        }
    }

    // What it says to people.
    pub fn words(self) -> &'static str
        ensures { result.now ≡ outcome_words self }
    {
        match self {
            Outcome::PassFinished => "pass finished",
            Outcome::Exchanged(_) => "exchanged",
            Outcome::Told(_) => "told, and left",
            Outcome::NoReply(_) => "no reply",
            Outcome::Crashed => "crash",
            Outcome::TestedTold(_) => "the tested board was told, and left",
        }
    }

    // The outcome with a number, with this tested station where it made a test.
    #[tactic(auto, unfolding(crate::specs::Outcome::outcome_with))]
    pub fn with_number(number: usize, tested: Station) -> Option<Outcome>
        ensures { result ≡ outcome_with number tested }
    {
        match number {
            0 => Some(Outcome::PassFinished),
            1 => Some(Outcome::Exchanged(tested)),
            2 => Some(Outcome::Told(tested)),
            3 => Some(Outcome::NoReply(tested)),
            4 => Some(Outcome::Crashed),
            5 => Some(Outcome::TestedTold(tested)),
            _ => None,
        }
    }
}

// What an outcome says to people.
impl fmt::Display for Outcome {
    ghost use Rattle.std.specs.Prelude.{Some};
    ghost use Rattle.station.specs.Outcome.{outcome_words};

    ghost output = { λ outcome. Some (outcome_words outcome) };

    fn fmt<W: fmt::Write>(&self, f: &mut fmt::Formatter<W>) -> fmt::Result {
        f.write_str(self.words())
    }
}
