// What is claimed of a plant under the bus master in which one board dies (specs/Setting.antt), and the bounds of a size (`bounds`). The other
// functions do nothing: their clauses are the claims.
#![tactic(auto)]

pub mod bounds;
pub mod claims;
pub mod cube;
pub mod ring;
