// A turn of one station.
ghost use Rattle.std.specs.Prelude.{◌≡◌, ◌≢◌, ◌<◌};
ghost use Rattle.table.specs.Lent.{IsSameLoan};
ghost use Rattle.table.specs.Table.{tests_made, row, set_row};
ghost use Rattle.station.specs.Wired.{wired_station};
ghost use Rattle.station.specs.Rows.{union};
ghost use Rattle.table.specs.Rules.{table_check};
ghost use Rattle.plant.specs.Kind.{kind_byte};
ghost use Rattle.station.specs.Outcome.{tested_byte, outcome_byte};
ghost use Rattle.plant.specs.Turn.{next_test, finish_pass, count_test, replies, exchange_rows, suspect, leave_told, reply_outcome, test_outcome};
ghost use Rattle.plant.specs.Turn.{after_outcome, is_alone, after_alone, outcome_at, testing, turn, turn_tested, turn_outcome};

use crate::kind::Kind;
use lists::bytes;
use station::outcome::Outcome;
use station::rows;
use station::wired::Wired;
use table::lent::{Table, TableMut};
use table::status::Status;
use table::{Distance, Station, cells};

// The turn of station i. That the table obeys the rules is a `requires`, here and in the callers, and no ghost field of the table: after the turn
// that ends a round, until it is closed, the table breaks rule Round not over, and between two writes to a line not even the line rules hold.
pub(crate) fn take_turn(table: &mut TableMut, kind: Kind, i: Station) -> Outcome
    requires table_obeys { table_check table.old.wiring table.old.n table.old.bytes.now ≡ Ok tt }
    requires station_below { i.0 < table.old.n }
    ensures tested_station { tested_byte result
        ≡ turn_tested table.old.wiring table.old.n table.old.bytes.now i.0 }
    ensures outcome_number { outcome_byte result
        ≡ turn_outcome table.old.wiring table.old.n table.old.bytes.now (kind_byte kind) i.0 }
    ensures same_loan { IsSameLoan table.old table.new }
    ensures turn_made { table.new.bytes.now
        ≡ turn table.old.wiring table.old.n table.old.bytes.now (kind_byte kind) i.0 }
{
    let m = next_test(&table.read(), i);
    if table.end <= m.0 {
        finish_pass(table, i);
        return Outcome::PassFinished;
    }
    make_test(table, kind, i, m)
}

// The next test: the least distance to test at that is not below the next one; the end distance where there is none.
#[tactic(auto, unfolding(crate::specs::Turn::next_test))]
fn next_test(table: &Table, i: Station) -> Distance
    requires { i.0 < table.now.n }
    ensures { result.0 ≡ next_test table.now.wiring table.now.n table.now.bytes.now i.0 }
{
    Wired::of(table).next_due(table.row(i), i, table.next_distance(i))
}

// The end of a pass: there is no next test.
#[tactic(auto, unfolding(crate::specs::Turn::finish_pass))]
fn finish_pass(table: &mut TableMut, i: Station)
    requires { i.0 < table.old.n }
    ensures same_loan { IsSameLoan table.old table.new }
    ensures pass_finished { table.new.bytes.now
        ≡ finish_pass table.old.wiring table.old.n table.old.bytes.now i.0 }
{
    table.put(i, cells::NEXT, table.end);
    table.put(i, cells::FINISHED, 1);
}

// Station i tests the station at distance m: the test is counted by its outcome, takes effect, and i leaves if it is alone.
fn make_test(table: &mut TableMut, kind: Kind, i: Station, m: Distance) -> Outcome
    requires table_obeys { table_check table.old.wiring table.old.n table.old.bytes.now ≡ Ok tt }
    requires tester_below { i.0 < table.old.n }
    requires distance_above_0 { 0 < m.0 }
    requires distance_below { m.0 < table.old.end }
    requires tested_below { wired_station table.old.wiring table.old.n i.0 m.0 < table.old.n }
    ensures tested_station { tested_byte result
        ≡ wired_station table.old.wiring table.old.n i.0 m.0 }
    ensures outcome_number { outcome_byte result
        ≡ outcome_at table.old.wiring table.old.n table.old.bytes.now (kind_byte kind) i.0 m.0 }
    ensures same_loan { IsSameLoan table.old table.new }
    ensures test_made { table.new.bytes.now
        ≡ testing table.old.wiring table.old.n table.old.bytes.now (kind_byte kind) i.0 m.0 }
{
    let lent = table.read();
    let j = Wired::of(&lent).station_at(i, m);
    let outcome = test_outcome(&lent, kind, i, j);
    count_test(table, i, m, outcome);
    apply_outcome(table, i, outcome);
    leave_if_alone(table, i);
    outcome
}

// Counts the test by its outcome: next distance and tests made of i.
#[tactic(auto, unfolding(crate::specs::Turn::count_test))]
fn count_test(table: &mut TableMut, i: Station, m: Distance, outcome: Outcome)
    requires line { i.0 < table.old.n }
    requires distance_fits { m.0 < 255 }
    requires tests_fit { tests_made table.old.n table.old.bytes.now i.0 < 255 }
    ensures same_loan { IsSameLoan table.old table.new }
    ensures test_counted { table.new.bytes.now
        ≡ count_test table.old.wiring table.old.n table.old.bytes.now i.0 m.0 (outcome_byte outcome) }
{
    let lent = table.read();
    let tests = lent.get(i, cells::TESTS);
    let next = Wired::of(&lent).next_after(m, outcome);
    table.put(i, cells::NEXT, next);
    table.put(i, cells::TESTS, tests + 1);
}

// The outcome of the test of j.
#[tactic(auto, unfolding(crate::specs::Turn::test_outcome))]
fn test_outcome(table: &Table, kind: Kind, i: Station, j: Station) -> Outcome
    requires tester_below { i.0 < table.now.n }
    requires tested_below { j.0 < table.now.n }
    ensures tested_station { tested_byte result ≡ j.0 }
    ensures outcome_number { outcome_byte result
        ≡ test_outcome table.now.n table.now.bytes.now (kind_byte kind) i.0 j.0 }
{
    if !does_reply(table, kind, j) {
        return Outcome::NoReply(j);
    }
    reply_outcome(table, i, j)
}

// The outcome where j replies. The row of j is asked first: whoever is suspected in it is told.
#[tactic(auto, unfolding(crate::specs::Turn::reply_outcome, crate::specs::Turn::is_told))]
fn reply_outcome(table: &Table, i: Station, j: Station) -> Outcome
    requires tester_below { i.0 < table.now.n }
    requires tested_below { j.0 < table.now.n }
    ensures tested_station { tested_byte result ≡ j.0 }
    ensures outcome_number { outcome_byte result
        ≡ reply_outcome table.now.n table.now.bytes.now i.0 j.0 }
{
    if table.suspects(j, i) {
        return Outcome::Told(j);
    }
    if table.suspects(i, j) {
        return Outcome::TestedTold(j);
    }
    Outcome::Exchanged(j)
}

// What the outcome of the test of j does to the table.
#[tactic(auto, using(table::proofs::SizeLaws::size_top), unfolding(crate::specs::Turn::after_outcome))]
fn apply_outcome(table: &mut TableMut, i: Station, outcome: Outcome)
    requires tester_below { i.0 < table.old.n }
    requires tested_below { tested_byte outcome < table.old.n }
    requires apart { i.0 ≢ tested_byte outcome }
    ensures same_loan { IsSameLoan table.old table.new }
    ensures outcome_applied { let n = table.old.n in
        let t = table.old.bytes.now in
        table.new.bytes.now ≡ after_outcome n t i.0 (tested_byte outcome) (outcome_byte outcome) }
{
    match outcome {
        Outcome::Told(j) => leave_told(table, i, j),
        Outcome::TestedTold(j) => leave_told(table, j, i),
        Outcome::Exchanged(j) => exchange_rows(table, i, j),
        Outcome::NoReply(j) => suspect(table, i, j),
        // No outcome of a test.
        Outcome::PassFinished | Outcome::Crashed => {}
    }
}

// Station a leaves because told by b, which byte 4 names.
#[tactic(auto, unfolding(crate::specs::Turn::leave_told))]
fn leave_told(table: &mut TableMut, a: Station, b: Station)
    requires { a.0 < table.old.n }
    ensures same_loan { IsSameLoan table.old table.new }
    ensures left_told { table.new.bytes.now ≡ leave_told table.old.n table.old.bytes.now a.0 b.0 }
{
    table.set_status(a, Status::LeftTold);
    table.put(a, cells::TOLD_BY, b.0);
}

// Whether j replies in time.
#[tactic(auto, unfolding(crate::specs::Turn::replies))]
fn does_reply(table: &Table, kind: Kind, j: Station) -> bool
    requires { j.0 < table.now.n }
    ensures { result ≡ replies table.now.n table.now.bytes.now (kind_byte kind) j.0 }
{
    table.is_live(j) & (kind == Kind::Turn)
}

// The exchange: both rows become the union of the two. Rows that are the same stay as they are. Otherwise each row is lent in turn as a part of
// the table, with both joined in a buffer.
#[tactic(auto, using(table::proofs::SizeLaws::size_top))]
fn exchange_rows(table: &mut TableMut, i: Station, j: Station)
    requires tester_below { i.0 < table.old.n }
    requires tested_below { j.0 < table.old.n }
    requires apart { i.0 ≢ j.0 }
    ensures same_loan { IsSameLoan table.old table.new }
    ensures rows_exchanged { table.new.bytes.now
        ≡ exchange_rows table.old.n table.old.bytes.now i.0 j.0 }
{
    let lent = table.read();
    let first = lent.row(i);
    let second = lent.row(j);
    if words::same_bytes(first, second) {
        return;
    }
    let mut both = [0u8; 64];
    bytes::write_joined(first, second, &mut both);
    let size = table.n as usize;
    join_into(table, i, &both[..size]);
    join_into(table, j, &both[..size]);
}

// Joins another row into the row of station i, lent as a part of the table.
fn join_into(table: &mut TableMut, i: Station, other: &[u8])
    requires { i.0 < table.old.n }
    ensures same_loan { IsSameLoan table.old table.new }
    ensures row_joined { let n = table.old.n in
        let t = table.old.bytes.now in
        table.new.bytes.now ≡ set_row n t i.0 (union (row n t i.0) other.now i.0) }
{
    let a = cells::row_start(table.n, i);
    let e = a + table.n as usize;
    rows::join_row(&mut table.bytes[a..e], other, i);
}

// Station i suspects station j: marked in the row of i, lent as a part of the table.
fn suspect(table: &mut TableMut, i: Station, j: Station)
    requires { i.0 < table.old.n }
    ensures same_loan { IsSameLoan table.old table.new }
    ensures row_marked { table.new.bytes.now ≡ suspect table.old.n table.old.bytes.now i.0 j.0 }
{
    let a = cells::row_start(table.n, i);
    let e = a + table.n as usize;
    rows::mark_row(&mut table.bytes[a..e], j);
}

// Station i leaves if it is live and suspects all others.
#[tactic(auto, unfolding(crate::specs::Turn::after_alone))]
fn leave_if_alone(table: &mut TableMut, i: Station)
    requires { i.0 < table.old.n }
    ensures same_loan { IsSameLoan table.old table.new }
    ensures left_if_alone { table.new.bytes.now ≡ after_alone table.old.n table.old.bytes.now i.0 }
{
    if suspects_all(&table.read(), i) {
        table.set_status(i, Status::LeftAlone);
    }
}

// Whether i is live and suspects all others.
#[tactic(auto, using(crate::proofs::RowLaws::alone_by_row), unfolding(crate::specs::Turn::is_alone))]
fn suspects_all(table: &Table, i: Station) -> bool
    requires { i.0 < table.now.n }
    ensures { result ≡ is_alone table.now.n table.now.bytes.now i.0 }
{
    if !table.is_live(i) {
        return false;
    }
    rows::suspects_all(table.row(i), i)
}
