// What a turn goes by, on a table or on a board's own line: the wiring, the size, and the end distance of both.
ghost use Rattle.std.specs.Prelude.{◌≡◌, ◌-◌, ◌<◌, true, IsTrue};
ghost use Rattle.lists.specs.Search.{least};
ghost use Rattle.table.specs.Sizes.{is_size};
ghost use Rattle.table.specs.Wiring.{end_distance};
ghost use Rattle.station.specs.Tests.{due};
ghost use Rattle.station.specs.Ahead.{SomebodyBefore, block_end};

use crate::outcome::Outcome;
use crate::{DueOrAhead, due, groups};
use table::lent::Table;
use table::wiring::Wiring;
use table::{Distance, Station};

// A wiring of a plant of n stations.
#[derive(Clone, Copy)]
pub struct Wired {
    pub wiring: Wiring,
    pub n: u8,
    pub end: u8,
    ghost sized: { is_size n ≡ true },
    ghost last_of_pass: { end ≡ end_distance wiring n },
}

impl Wired {
    ghost use Rattle.std.specs.Prelude.{◌+◌, ◌%◌, ◌<◌};
    ghost use Rattle.station.specs.Wired.{wired_station, next_due, next_after};
    ghost use Rattle.station.specs.Outcome.{outcome_byte};

    // The wiring of n stations.
    pub fn new(wiring: Wiring, n: u8) -> Wired
        requires { is_size n ≡ true }
        ensures same_wiring { result.wiring ≡ wiring }
        ensures same_size { result.n ≡ n }
    {
        let end = wiring.end_byte(n);
        Wired { wiring, n, end }
    }

    // That of a table.
    pub fn of(table: &Table) -> Wired
        ensures same_wiring { result.wiring ≡ table.now.wiring }
        ensures same_size { result.n ≡ table.now.n }
        ensures same_end { result.end ≡ table.now.end }
    {
        Wired {
            wiring: table.wiring,
            n: table.n,
            end: table.end,
        }
    }

    // The station at distance m from i.
    #[tactic(auto, using(crate::proofs::WiredLaws::wired_bounds), unfolding(crate::specs::Wired::wired_station))]
    pub fn station_at(self, i: Station, m: Distance) -> Station
        requires station { i.0 < self.n }
        requires distance { m.0 < self.end }
        ensures { result.0 ≡ wired_station self.wiring self.n i.0 m.0 }
    {
        match self.wiring {
            Wiring::Cube => groups::station_at(i, m),
            Wiring::Ring => {
                let at = i.0 + m.0;
                self.place(at)
            }
        }
    }

    // The station at a place of the ring, where behind n − 1 comes 0.
    #[tactic(auto, using(table::proofs::SizeLaws::size_top, crate::proofs::WiredLaws::place_before, crate::proofs::WiredLaws::place_behind))]
    fn place(self, at: u8) -> Station
        requires { at < self.n + self.n }
        ensures { result.0 ≡ at % self.n }
    {
        if at < self.n {
            Station(at)
        } else {
            Station(at - self.n)
        }
    }

    // The distance of the next test of i, by its row and its next distance: the least one from there on at which it is to test; the end distance
    // where there is none.
    pub fn next_due(self, row: &[u8], i: Station, next: Distance) -> Distance
        ensures { result.0 ≡ next_due self.wiring self.n row.now i.0 next.0 }
    {
        match self.wiring {
            Wiring::Cube => scan(row, i, self.end, next),
            Wiring::Ring => next,
        }
    }

    // The next distance after a test at distance m, by its outcome.
    #[tactic(auto, unfolding(crate::specs::Wired::next_after))]
    pub fn next_after(self, m: Distance, outcome: Outcome) -> u8
        requires { m.0 < 255 }
        ensures { result ≡ next_after self.wiring self.n m.0 (outcome_byte outcome) }
    {
        match self.wiring {
            Wiring::Cube => m.0 + 1,
            Wiring::Ring => match outcome {
                Outcome::Exchanged(_) => self.n,
                _ => m.0 + 1,
            },
        }
    }
}

// The least distance from `from` on, and below `end`, that is due for i by its row; `end`, or `from` if that is greater, where there is none.
// Where somebody unsuspected stands before i, no distance of the block that begins there is due, and the scan goes on behind it. One such station
// is found at once, unless it is suspected.
fn scan(row: &[u8], i: Station, end: u8, from: Distance) -> Distance
    ensures { result.0 ≡ least (due row.now i.0) (end - from.0) from.0 }
{
    // Distance 0 is never due.
    let mut m = (from.0 as u16).max(1);
    while m < end as u16 {
        let at = Distance(m as u8);
        if !is_nearer_ahead(row, i, at) {
            if !due::stands(row, i, at) {
                m += 1;
                continue;
            }
            if due::due_or_ahead(row, i, at).is_due() {
                return at;
            }
        }
        let last = block_end(at);
        m = last.0 as u16 + 1;
    }
    Distance(end.max(from.0))
}

// Whether the row leaves that station unsuspected which stands, from the one at distance m, at the distance m without its lowest 1. It stands before
// i.
fn is_nearer_ahead(row: &[u8], i: Station, m: Distance) -> bool
    requires { 0 < m.0 }
    ensures { IsTrue result → SomebodyBefore row.now i.0 m.0 }
{
    let nearer = Distance(m.0 & (m.0 - 1));
    if nearer.0 == 0 {
        return false;
    }
    let x = groups::station_at(groups::station_at(i, m), nearer);
    due::is_unsuspected(row, x)
}

// m with its digits below its lowest 1 all 1. Whoever stands before a station in the group at distance m does so at every distance from m to
// this one.
pub(crate) fn block_end(m: Distance) -> Distance
    requires { 0 < m.0 }
    ensures { result.0 ≡ block_end m.0 }
{
    Distance(m.0 | (m.0 - 1))
}
