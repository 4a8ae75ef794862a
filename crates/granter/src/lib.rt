// The granter: which station is granted the next turn, and the drive, which repeats grant and turn. It stands above `plant`
// and relies only on what that crate and those below it state. The calls are grant::grant and drive::drive; those of `claims`
// do nothing: their clauses are claims of every grant and drive.
#![tactic(auto)]

pub mod claims;
pub mod drive;
pub mod grant;

use lists::refusal::Refusal;
use plant::Tally;

// How a drive went: the tally it leaves, the last granted number, how many grants it made, and the refusal that it was turned away with or
// stopped at, if there was one. `last` is a number, 255 for none, and no Option<Station>: a refused drive gives back any number that was handed
// in.
#[derive(Clone, Copy, Debug, PartialEq, Eq)]
pub struct Driven {
    pub tally: Tally,
    pub last: usize,
    pub grants: usize,
    pub stopped: Option<Refusal>,
}
