// The drive: grant and turn on the lent table, again and again.
ghost use Rattle.std.specs.Prelude.{◌≡◌, ◌<◌, IfSome};
ghost use Rattle.table.specs.Lent.{IsSameLoan};
ghost use Rattle.plant.specs.Entry.{state_with};
ghost use Rattle.granter.specs.Grant.{last_number, grant_check};
ghost use Rattle.granter.specs.Drive.{stand_at, ended, drive_result, outcome_after, drive, Stopped, StoppedIfTaken};

use crate::{Driven, grant};
use lists::refusal::Refusal;
use plant::{Tally, single};
use table::Station;
use table::lent::{Table, TableMut};
use table::wiring::Wiring;

// Grants and turns of kind 1 until a round closes, nobody is left live, or a tally is full. A drive refused at its start changes no byte.
pub fn drive(wiring: Wiring, n: usize, table: &mut [u8], tally: Tally, last: usize) -> Driven
    ensures outcome { drive_result result table.new
        ≡ drive wiring n (state_with table.old tally) last }
    ensures stopped_if_taken { let start = state_with table.old tally in
        StoppedIfTaken wiring n start last result.grants }
{
    // By hand and not by `?`: the answer is no Result, since a drive that is stopped keeps the turns that it made.
    let (n, end, before) = match grant::check_grant(wiring, n, table, last) {
        Ok((lent, before)) => (lent.n, lent.end, before),
        Err(refusal) => {
            return Driven {
                tally,
                last,
                grants: 0,
                stopped: Some(refusal),
            };
        }
    };
    let mut lent = TableMut {
        wiring,
        n,
        end,
        bytes: table,
    };
    drive_on(&mut lent, tally, before)
}

// A drive that is not refused at its start: grant and turn until it stops.
fn drive_on(table: &mut TableMut, tally: Tally, last: Option<Station>) -> Driven
    requires taken { grant_check table.old.wiring table.old.n table.old.bytes.now (last_number last) ≡ Ok tt }
    requires last_below { IfSome last (λ i. i.0 < table.old.n) }
    ensures same_loan { IsSameLoan table.old table.new }
    ensures outcome { let s = state_with table.old.bytes.now tally in
        drive_result result table.new.bytes.now
        ≡ outcome_after table.old.wiring table.old.n (stand_at s (last_number last)) result.grants }
    ensures stopped { Stopped table.old.wiring table.old.n
        (stand_at (state_with table.old.bytes.now tally) (last_number last)) result.grants }
{
    let mut held = tally;
    let mut before = last;
    let mut grants: usize = 0;
    let stopped = loop {
        if held.is_full() {
            break Some(Refusal::TallyFull);
        }
        let i = grant::next_station(&table.read(), before);
        held = single::take_turn(table, held, i);
        before = Some(i);
        grants += 1;
        let ended = has_ended(&table.read(), tally.rounds, held);
        if ended {
            break None;
        }
    };
    Driven {
        tally: held,
        last: grant::last_number(before),
        grants,
        stopped,
    }
}

// Whether a round has closed since the tally had these rounds, or nobody is left live.
#[tactic(auto, unfolding(crate::specs::Drive::ended))]
fn has_ended(table: &Table, rounds: u32, held: Tally) -> bool
    ensures { result ≡ ended table.now.n rounds (state_with table.now.bytes.now held) }
{
    held.rounds != rounds || !grant::some_live(table)
}
