// The line rules and the check of a table: refusals 1 to 4.
// Within a line bools are joined by `&` and `|`, which make no branch; an `if` stands where a branch is faster.
ghost use Rattle.std.specs.Prelude.{◌≡◌, ◌<◌, ◌&&◌, length, slice_index};
ghost use Rattle.lists.specs.Search.{every};
ghost use Rattle.table.specs.Status.{status_byte};
ghost use Rattle.table.specs.Rules.{status_rule, pass_rule, exit_rule, row_rule_by, line_rules, shape_check, table_check};

use crate::lent::Table;
use crate::status::Status;
use crate::wiring::Wiring;
use crate::{Station, cells, sizes};
use lists::refusal::Refusal;

// Refusals 1 and 2.
#[tactic(auto, using(crate::proofs::SizeLaws::size_top), unfolding(crate::specs::Rules::shape_check))]
pub(crate) fn check_shape(n: usize, len: usize) -> Result<(), Refusal>
    ensures { result ≡ shape_check n len }
{
    if !sizes::is_size(n) {
        return Err(Refusal::SizeOutOfRange);
    }
    if len != cells::table_length(n as u8) {
        return Err(Refusal::TableLength);
    }
    Ok(())
}

// Refusals 1 to 4.
pub fn check_table(wiring: Wiring, n: usize, table: &[u8]) -> Result<(), Refusal>
    ensures { result ≡ table_check wiring n table.now }
{
    Table::checked(wiring, n, table).map(|_| ())
}

// Whether every line obeys the line rules. A loop with an exit is faster here than std's `all`.
#[tactic(auto, using(lists::proofs::Loops::loops))]
pub(crate) fn all_lines(table: &Table) -> bool
    ensures { let n = table.now.n in
        result ≡ every (line_rules table.now.wiring n table.now.bytes.now) n }
{
    for i in 0..table.n {
        if !line_rules(table, Station(i)) {
            return false;
        }
    }
    true
}

#[tactic(auto, unfolding(crate::specs::Rules::line_rules))]
fn line_rules(table: &Table, i: Station) -> bool
    requires { i.0 < table.now.n }
    ensures { result
        ≡ line_rules table.now.wiring table.now.n table.now.bytes.now i.0 }
{
    let next = table.get(i, cells::NEXT);
    let finished = table.get(i, cells::FINISHED);
    let tests = table.get(i, cells::TESTS);
    if !pass_rule(table.end, next, finished, tests) {
        return false;
    }
    let status = table.get(i, cells::STATUS);
    let by = table.get(i, cells::TOLD_BY);
    let ago = table.get(i, cells::ROUNDS_AGO);
    if !status_and_exit_rule(table.n, i, status, by, ago) {
        return false;
    }
    table.keeps_row_rule(i)
}

// The rules of bytes 1 to 3, by the end distance. Byte 1 is 1 or more where byte 3 is below it.
pub fn pass_rule(end: u8, next: u8, finished: u8, tests: u8) -> bool
    ensures { result ≡ pass_rule end next finished tests }
{
    if end < next {
        return false;
    }
    if next <= tests {
        return false;
    }
    finished <= (next == end) as u8
}

// The rules of bytes 0, 4 and 5. Most lines are of a live station that nobody told: that is asked first.
#[tactic(auto, using(crate::proofs::StatusLaws::status_ok, crate::proofs::StatusLaws::status_err), unfolding(crate::specs::Rules::exit_rule))]
fn status_and_exit_rule(n: u8, i: Station, status: u8, by: u8, ago: u8) -> bool
    ensures { result ≡ (status_rule status && exit_rule n i.0 status by ago) }
{
    if (status == 0) & (by == cells::TOLD_BY_NONE) & (ago == 0) {
        return true;
    }
    let Ok(status) = Status::try_from(status) else {
        return false;
    };
    exit_rule(n, i, status, by, ago)
}

// The rules of bytes 4 and 5, by the status. Byte 4 is asked first, since most often it is 255, and the rest makes no branch.
#[tactic(auto, unfolding(crate::specs::Rules::exit_rule))]
pub fn exit_rule(n: u8, i: Station, status: Status, by: u8, ago: u8) -> bool
    ensures { result ≡ exit_rule n i.0 (status_byte status) by ago }
{
    if by == cells::TOLD_BY_NONE {
        return (status != Status::LeftTold) & ((status != Status::Live) | (ago == 0));
    }
    (status == Status::LeftTold) & ((by == cells::NOT_RECORDED) | ((by < n) & (by != i.0)))
}

// Whether the row of station i keeps its rules: the byte about i itself, and every byte.
#[tactic(auto, unfolding(words::specs::Words::are_bits))]
pub fn keeps_row_rule(row: &[u8], i: Station) -> bool
    requires { i.0 < length row.now }
    ensures { result ≡ row_rule_by (length row.now) i.0 (slice_index row.now) }
{
    (row[i.0 as usize] == 0) & words::are_bits(row)
}
