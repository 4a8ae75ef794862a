// What the bytes of a line become.
ghost use Rattle.std.specs.Prelude.{◌≡◌, ◌<◌, ◌∷◌, []};
ghost use Rattle.lists.specs.Search.{list_of};
ghost use Rattle.table.specs.Status.{status_byte};
ghost use Rattle.table.specs.Rules.{finished_if_live, round_over};
ghost use Rattle.mender.specs.Mended.{mended_status, keeps_pass, mended_told_by, mended_rounds_ago, mended_suspicion, lines_mended, mended_byte};

use table::lent::Table;
use table::status::Status;
use table::{Station, cells, rules};

// Whether the round is over once each line is mended: then refusal 4 would still apply. The loop of `Table::is_round_over`.
#[tactic(auto, using(lists::proofs::Loops::loops, table::proofs::Accepting::rounds))]
pub(crate) fn is_over(table: &Table) -> bool
    ensures { let n = table.now.n in
        result ≡ round_over n (lines_mended table.now.wiring n table.now.bytes.now) }
{
    let mut some = false;
    for i in 0..table.n {
        if !finished_if_live(table, Station(i)) {
            return false;
        }
        some |= table.is_live(Station(i));
    }
    some
}

// Whether station i, if it is live, has finished its pass once its line is mended.
fn finished_if_live(table: &Table, i: Station) -> bool
    requires { i.0 < table.now.n }
    ensures { let n = table.now.n in
        result ≡ finished_if_live n (lines_mended table.now.wiring n table.now.bytes.now) i.0 }
{
    !table.is_live(i) | (table.is_finished(i) & keeps_pass(table, i))
}

// Whether bytes 1 to 3 of line i keep their rules.
fn keeps_pass(table: &Table, i: Station) -> bool
    requires { i.0 < table.now.n }
    ensures { result ≡ keeps_pass table.now.wiring table.now.n table.now.bytes.now i.0 }
{
    let next = table.get(i, cells::NEXT);
    let finished = table.get(i, cells::FINISHED);
    let tests = table.get(i, cells::TESTS);
    rules::pass_rule(table.end, next, finished, tests)
}

// Bytes 0 to 5 of line i, mended.
pub(crate) fn mended_head(table: &Table, i: Station, over: bool) -> [u8; 6]
    requires { i.0 < table.now.n }
    ensures { result ≡ list_of (mended_byte table.now.wiring table.now.n table.now.bytes.now over i.0) 6 }
{
    let status = mended_status(table.get(i, cells::STATUS));
    let by = mended_told_by(table.n, i, status, table.get(i, cells::TOLD_BY));
    let ago = mended_rounds_ago(table.n, i, status, by, table.get(i, cells::ROUNDS_AGO));
    let [next, finished, tests] = mended_pass(table, i, over);
    [u8::from(status), next, finished, tests, by, ago]
}

// Bytes 1 to 3 of line i, mended: 1, 0, 0 if the round is over or they break a rule.
fn mended_pass(table: &Table, i: Station, over: bool) -> [u8; 3]
    requires { i.0 < table.now.n }
    ensures { let byte = mended_byte table.now.wiring table.now.n table.now.bytes.now over i.0 in
        result ≡ byte 1 ∷ byte 2 ∷ byte 3 ∷ [] }
{
    if over | !keeps_pass(table, i) {
        return [1, 0, 0];
    }
    [
        table.get(i, cells::NEXT),
        table.get(i, cells::FINISHED),
        table.get(i, cells::TESTS),
    ]
}

// A status above 3 becomes that of a crash.
fn mended_status(status: u8) -> Status
    ensures { status_byte result ≡ mended_status status }
{
    Status::try_from(status).unwrap_or(Status::Crashed)
}

// Byte 4, by the mended status.
fn mended_told_by(n: u8, i: Station, status: Status, by: u8) -> u8
    ensures { result ≡ mended_told_by n i.0 (status_byte status) by }
{
    if rules::exit_rule(n, i, status, by, 0) {
        return by;
    }
    if status == Status::LeftTold {
        return cells::NOT_RECORDED;
    }
    cells::TOLD_BY_NONE
}

// Byte 5, by the mended status and the mended byte 4.
fn mended_rounds_ago(n: u8, i: Station, status: Status, by: u8, ago: u8) -> u8
    ensures { result ≡ mended_rounds_ago n i.0 (status_byte status) by ago }
{
    if rules::exit_rule(n, i, status, by, ago) {
        return ago;
    }
    0
}

// The byte of station i's row about station k.
pub(crate) fn mended_suspicion(i: Station, k: Station, byte: u8) -> u8
    ensures { result ≡ mended_suspicion i.0 k.0 byte }
{
    if (k == i) | (byte > 1) {
        return 0;
    }
    byte
}
