// The lent table of the vCube watch: its layout, wiring, line rules, refusals 1 to 4, the fresh table, bytes and rows.
//
// The call for callers is fresh::fresh_table. The rest is open for the crates above. No function open to a caller has a `requires`, but for
// those of `lent` and `inside`, which are meant for crates that know that the line is there, and three that say so: fresh::write_line,
// rules::keeps_row_rule, wiring::end_byte.
#![tactic(auto)]

pub mod cells;
pub mod fresh;
pub mod inside;
pub mod lent;
pub mod rules;
pub mod sizes;
pub mod status;
pub mod wiring;

// The number of a station, 0 to N − 1.
#[derive(Clone, Copy, Debug, Default, PartialEq, Eq, PartialOrd, Ord)]
pub struct Station(pub u8);

// The distance of two stations: the exclusive or of their numbers.
#[derive(Clone, Copy, Debug, PartialEq, Eq, PartialOrd, Ord)]
pub struct Distance(pub u8);

// The level of a group, 1 to d.
#[derive(Clone, Copy, Debug, PartialEq, Eq, PartialOrd, Ord)]
pub struct Level(pub u8);
