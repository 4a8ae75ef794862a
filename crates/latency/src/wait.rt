// How long a dead board may go unseen, by wiring, size and table.
ghost use Rattle.std.specs.Prelude.{◌≡◌, ◌≤◌, ◌*◌};
ghost use Rattle.table.specs.Properties.{live_count, exact_row};
ghost use Rattle.detection.specs.Claim.{worst_rounds};
ghost use Rattle.latency.specs.Bound.{turns_per_round};
ghost use Rattle.latency.specs.Wait.{wait_on, wait_answer};

use crate::turns;
use arrayvec::ArrayVec;
use lists::refusal::Refusal;
use table::Station;
use table::lent::Table;
use table::wiring::Wiring;

// The bounds on the rounds and on the turns after which all live boards know all dead ones, and on the turns of a round.
#[derive(Clone, Copy, Debug, Default, PartialEq, Eq)]
pub struct Wait {
    pub rounds: u32,
    pub turns_per_round: u32,
    pub turns_until_known: u32,
    pub turns_from_crash: u32,
}

// The bounds for a table on a wiring: refusals 1 to 4.
#[tactic(auto, unfolding(crate::specs::Wait::wait_answer))]
pub fn wait_of(wiring: Wiring, n: usize, table: &[u8]) -> Result<Wait, Refusal>
    ensures { result ≡ wait_answer wiring n table.now }
{
    let table = Table::checked(wiring, n, table)?;
    Ok(wait_on(&table))
}

// The bounds for a table that is not refused.
fn wait_on(table: &Table) -> Wait
    ensures { result ≡ wait_on table.now.wiring table.now.n table.now.bytes.now }
{
    let rounds = worst_rounds(table.wiring, table.n);
    let turns = turns_per_round(table);
    Wait {
        rounds,
        turns_per_round: turns,
        turns_until_known: rounds * turns,
        turns_from_crash: turns + rounds * turns,
    }
}

// The rounds of the worst case.
fn worst_rounds(wiring: Wiring, n: u8) -> u32
    ensures rounds { result ≡ worst_rounds wiring n }
    ensures upper_bound { result ≤ 127 }
{
    match wiring {
        Wiring::Cube => turns::worst_rounds(n),
        Wiring::Ring => u32::from(n / 2),
    }
}

// How many turns a round has at most.
fn turns_per_round(table: &Table) -> u32
    ensures turns { result ≡ turns_per_round table.now.wiring table.now.n table.now.bytes.now }
    ensures upper_bound { result ≤ 256 * table.now.n }
{
    match table.wiring {
        Wiring::Cube => turns::turns_by_row(table.n, &dead_row(table)),
        Wiring::Ring => u32::from(table.n) + live_boards(table),
    }
}

// The row that suspects exactly the dead boards.
fn dead_row(table: &Table) -> ArrayVec<u8, 64>
    ensures { result.items ≡ exact_row table.now.n table.now.bytes.now }
{
    let mut row = ArrayVec::new();
    for j in 0..table.n {
        row.push(u8::from(!table.is_live(Station(j))));
    }
    row
}

// How many boards are live.
fn live_boards(table: &Table) -> u32
    ensures count { result ≡ live_count table.now.n table.now.bytes.now }
    ensures upper_bound { result ≤ table.now.n }
{
    let mut count: u32 = 0;
    for i in 0..table.n {
        count += u32::from(table.is_live(Station(i)));
    }
    count
}
