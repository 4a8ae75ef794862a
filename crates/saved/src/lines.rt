// The second pass over a file: the table that its lines give, in either edition. Refusal 20.
ghost use Rattle.std.specs.Prelude.{◌≡◌, ◌<◌, true, false, slice_index_or, length, set, Ok, OnErr};
ghost use Rattle.std.proofs.lemmas.List.Edits.{sets};
ghost use Rattle.lists.specs.Search.{every};
ghost use Rattle.lists.specs.Refusal.{ensure};
ghost use Rattle.table.specs.Lent.{IsSameLoan};
ghost use Rattle.table.specs.Table.{line_start};
ghost use Rattle.saved.specs.Fields.{runs_past};
ghost use Rattle.saved.specs.Plant.{station_in, lines_right};
ghost use Rattle.saved.specs.Load.{file_lines};
ghost use Rattle.saved.specs.Edition1.{told_by_of, converted_line};
ghost use Rattle.saved.specs.Edition1.{stride as old_stride};
ghost use Rattle.saved.specs.Reading.{line_length, line_as, contents_length, line_read, table_read, is_new};

use crate::edition::Edition;
use crate::fields::Fields;
use crate::{LINE, bytes, edition};
use lists::refusal::Refusal;
use table::lent::TableMut;
use table::status::Status;
use table::{Station, cells};

// The stations that a plant has at most.
const MOST: usize = 64;

// Puts a line into the table, where its contents have the right length and its station is in the plant and not yet seen. A refused line is not
// written.
fn take_line(
    table: &mut TableMut,
    edition: Edition,
    contents: &[u8],
    seen: &mut [bool; MOST],
) -> Result<(), Refusal>
    ensures check { let len = contents_length edition table.old.n in
        result ≡ ensure (is_new len table.old.n contents.now seen.old) Refusal.LineField }
    ensures same_loan { IsSameLoan table.old table.new }
    ensures line_written { let start = line_start table.old.n (station_in contents.now) in
        result ≡ Ok tt → table.new.bytes.now ≡ sets table.old.bytes.now start (line_read edition contents.now) }
    ensures nothing_written { OnErr result (table.new.bytes.now ≡ table.old.bytes.now) }
    ensures station_seen { result ≡ Ok tt → seen.new ≡ set seen.old (station_in contents.now) true }
{
    let [i, line @ ..] = contents else {
        return Err(Refusal::LineField);
    };
    let station = *i as usize;
    if line.len() != edition.line_length(table.n) || table.n <= *i || seen[station] {
        return Err(Refusal::LineField);
    }
    seen[station] = true;
    put_line(table, edition, Station(*i), line);
    Ok(())
}

// Writes a line of that edition into the table.
pub fn put_line(table: &mut TableMut, edition: Edition, i: Station, line: &[u8])
    requires station { i.0 < table.old.n }
    requires width { length line.now ≡ line_length edition table.old.n }
    ensures same_loan { IsSameLoan table.old table.new }
    ensures line_written { table.new.bytes.now
        ≡ sets table.old.bytes.now (line_start table.old.n i.0) (line_as edition line.now) }
{
    match edition {
        Edition::One => put_old_line(table, i, line),
        Edition::Two => table.put_line(i, line),
    }
}

// Writes a line of edition 1, with the two bytes that it has not.
fn put_old_line(table: &mut TableMut, i: Station, line: &[u8])
    requires station { i.0 < table.old.n }
    requires width { length line.now ≡ old_stride table.old.n }
    ensures same_loan { IsSameLoan table.old table.new }
    ensures line_written { table.new.bytes.now
        ≡ sets table.old.bytes.now (line_start table.old.n i.0) (converted_line line.now) }
{
    let (head, row) = line.split_at(edition::OLD_HEAD);
    let start = cells::line_start(table.n, i);
    bytes::put_list(table.bytes, start, head);
    table.put(i, cells::TOLD_BY, told_by(head[0]));
    table.put(i, cells::ROUNDS_AGO, 0);
    bytes::put_list(table.bytes, start + cells::HEAD as usize, row);
}

// Byte 4 of a station of that status, of which edition 1 does not say who told it.
fn told_by(status: u8) -> u8
    ensures { result ≡ told_by_of status }
{
    if status == u8::from(Status::LeftTold) {
        cells::NOT_RECORDED
    } else {
        cells::TOLD_BY_NONE
    }
}

// Whether all are seen. The loop has no exit, so that the compiler takes many at a time: mostly all are.
fn all_seen(seen: &[bool]) -> bool
    ensures { result ≡ every (λ i. slice_index_or seen.now i false) (length seen.now) }
{
    let mut all = true;
    for one in seen {
        all &= *one;
    }
    all
}

// Builds the file's table, where every line has the right length and there is just one for each station and none for another.
pub(crate) fn build_table(
    file: &[u8],
    edition: Edition,
    table: &mut TableMut,
) -> Result<(), Refusal>
    requires { runs_past file.now ≡ false }
    ensures check { let len = contents_length edition table.old.n in
        result ≡ ensure (lines_right len table.old.n (file_lines file.now)) Refusal.LineField }
    ensures same_loan { IsSameLoan table.old table.new }
    ensures table_built { let lines = file_lines file.now in
        result ≡ Ok tt → table.new.bytes.now ≡ table_read edition table.old.n lines }
{
    let mut seen = [false; MOST];
    let mut fields = Fields { rest: file };
    while let Some(field) = fields.next()? {
        if field.tag != LINE {
            continue; // passed over
        }
        take_line(table, edition, field.contents, &mut seen)?;
    }
    if all_seen(&seen[..table.n as usize]) {
        Ok(())
    } else {
        Err(Refusal::LineField)
    }
}
