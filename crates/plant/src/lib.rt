// The plant run of the vCube watch: one station's turn (`steps`), entries, rounds, the tally. It stands above `station` and relies only on what
// the crates below state. The call is run::run.
// single::take_turn has a `requires`: it is for the crates above, which have checked the table. Those of `claims` do nothing: their clauses are
// claims of every run.
#![tactic(auto)]

pub mod claims;
pub mod entry;
pub mod kind;
mod rounds;
pub mod run;
pub mod single;
mod steps;

use lists::refusal::Refusal;

// The tally of closed rounds and of tests.
#[derive(Clone, Copy, Debug, Default, PartialEq, Eq)]
pub struct Tally {
    pub rounds: u32,
    pub tests: u32,
}

impl Tally {
    ghost use Rattle.std.specs.Prelude.{◌≡◌};
    ghost use Rattle.plant.specs.Entry.{tally_full};

    // Whether either of the two can grow no more.
    pub fn is_full(self) -> bool
        ensures { result ≡ tally_full self.rounds self.tests }
    {
        (self.rounds == u32::MAX) | (self.tests == u32::MAX)
    }
}

// How a run went: how many entries were taken, the tally after them, and the refusal that stopped it, if one did.
#[derive(Clone, Copy, Debug, PartialEq, Eq)]
pub struct Ran {
    pub taken: usize,
    pub tally: Tally,
    pub stopped: Option<Refusal>,
}

ghost use Rattle.std.specs.Prelude.{◌≡◌};
ghost use Rattle.plant.specs.Run.{stop_refusal};

// The number of the refusal that stopped a run or a drive, 0 where none did.
pub fn stop_refusal(stopped: Option<Refusal>) -> u8
    ensures { result ≡ stop_refusal stopped }
{
    stopped.map_or(0, Refusal::number)
}
