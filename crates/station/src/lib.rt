// The station rules of the vCube watch: groups, due tests and rows. They stand above `table`.
// The plant run stands above this crate and relies only on what is stated here.
//
// The calls: groups::group_list, due::assignment, rows::row and rows::check_row. The rest is open for the crates above. Of what is open
// only `wired` has functions with a `requires`: they are for what is checked. The functions of `claims` do nothing: their clauses are the claims of
// specs/Partition.antt, specs/Nested.antt and specs/Ahead.antt.
#![tactic(auto)]

ghost use Rattle.std.specs.Prelude.{◌≡◌};
ghost use Rattle.station.specs.Tests.{says_due};
ghost use Rattle.station.specs.Calls.{answer_value, answer_byte};

pub mod claims;
pub mod due;
pub mod groups;
pub mod outcome;
pub mod rows;
pub mod wired;

use table::Station;

// What the question whether a distance is due answers. Not an `Option`: both cases have a name, and the second names a station for every row.
#[derive(Clone, Copy)]
pub enum DueOrAhead {
    // The distance is due.
    Due,
    // It is not: the station that is first instead. Where nobody is first, or nobody stands at the distance, the one that asks.
    Ahead(Station),
}

impl DueOrAhead {
    // Whether the distance is due.
    pub fn is_due(self) -> bool
        ensures { result ≡ says_due (answer_value self) }
    {
        matches!(self, DueOrAhead::Due)
    }

    // The second byte of an entry of an assignment: 255 if due or else the one ahead.
    pub fn byte(self) -> u8
        ensures { result ≡ answer_byte (answer_value self) }
    {
        match self {
            DueOrAhead::Due => 255,
            DueOrAhead::Ahead(x) => x.0,
        }
    }
}
