// The wiring of a plant, as a value and as the number that a call is given.
ghost use Rattle.std.specs.Prelude.{◌≡◌, ◌≤◌, true};
ghost use Rattle.table.specs.Sizes.{is_size};
ghost use Rattle.table.specs.Wiring.{wiring_of, end_distance};

use crate::sizes;
use lists::refusal::Refusal;

// Who tests whom.
#[derive(Clone, Copy, Debug, PartialEq, Eq)]
pub enum Wiring {
    // A station tests at its due distances.
    Cube = 1,
    // It tests the stations after it, one after the other, until one exchanges.
    Ring = 2,
}

// The wiring that a number stands for; refusal 24 where there is none.
impl TryFrom<usize> for Wiring {
    type Error = Refusal;

    ghost try_from_gives = { λ number result. result ≡ wiring_of number };

    fn try_from(number: usize) -> Result<Self, Refusal> {
        match number {
            1 => Ok(Wiring::Cube),
            2 => Ok(Wiring::Ring),
            _ => Err(Refusal::NoSuchWiring),
        }
    }
}

impl Wiring {
    // The next distance of a finished line of n stations.
    #[tactic(auto, unfolding(crate::specs::Wiring::end_distance))]
    pub fn end_distance(self, n: u8) -> u16
        ensures last_of_pass { result ≡ end_distance self n }
        ensures upper_bound { result ≤ 256 }
    {
        match self {
            Wiring::Cube => sizes::distances(n),
            Wiring::Ring => u16::from(n),
        }
    }

    // The same as a byte, where n is a plant's size.
    #[tactic(auto, using(crate::proofs::SizeLaws::size_top, crate::proofs::WiringLaws::end_top))]
    pub fn end_byte(self, n: u8) -> u8
        requires { is_size n ≡ true }
        ensures { result ≡ end_distance self n }
    {
        self.end_distance(n) as u8
    }
}
