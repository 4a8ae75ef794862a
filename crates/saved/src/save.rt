// The writer.
ghost use Rattle.std.specs.Prelude.{◌≡◌, ◌∷◌, ◌+◌, ◌*◌, ◌≤◌, ◌<◌, length};
ghost use Rattle.std.proofs.lemmas.List.Edits.{sets};
ghost use Rattle.table.specs.Table.{stride};
ghost use Rattle.saved.specs.Bytes.{bytes_of};
ghost use Rattle.saved.specs.Fields.{field, field_bytes};
ghost use Rattle.saved.specs.Plant.{line_tag};
ghost use Rattle.saved.specs.Save.{front_fields, saved_lines, saved_length, save_check, save_after};

use crate::{LINE, OPENING, SECOND, SIZE, TALLY, bytes};
use lists::refusal::Refusal;
use plant::Tally;
use table::cells;
use table::lent::Table;
use table::wiring::Wiring;

// The bytes of the opening, the size field and the tally field.
const FRONT: usize = 19;

// The bytes of a line field besides the line: the field's head and the station.
const BESIDE_LINE: usize = 3 + 1;

// Writes the saved plant into the buffer, which has just its length.
#[tactic(auto, using(crate::proofs::Saving::writing), unfolding(crate::specs::Save::save_check, crate::specs::Save::save_after))]
pub fn save(n: usize, table: &[u8], tally: Tally, buffer: &mut [u8]) -> Result<(), Refusal>
    ensures check { result ≡ save_check n table.now tally (length buffer.old) }
    ensures buffer_after { buffer.new ≡ save_after n table.now tally buffer.old }
{
    let table = Table::checked(Wiring::Cube, n, table)?;
    if buffer.len() != saved_length(table.n) {
        return Err(Refusal::ListLength);
    }
    write_front(table.n, tally, buffer);
    write_lines(&table, buffer);
    Ok(())
}

// The length of a saved plant of n stations.
pub(crate) fn saved_length(n: u8) -> usize
    ensures { result ≡ saved_length n }
{
    let n = n as usize;
    FRONT + n * (n + cells::HEAD as usize + BESIDE_LINE)
}

// The opening, the size field and the tally field, by their places.
fn write_front(n: u8, tally: Tally, buffer: &mut [u8])
    requires { 19 ≤ length buffer.old }
    ensures { buffer.new ≡ sets buffer.old 0 (front_fields n tally) }
{
    put_head(buffer, 0, OPENING, 1);
    buffer[3] = SECOND;
    put_head(buffer, 4, SIZE, 1);
    buffer[7] = n;
    put_head(buffer, 8, TALLY, 8);
    bytes::put_word(buffer, 11, tally.rounds);
    bytes::put_word(buffer, 15, tally.tests);
}

// The line fields behind them, ascending.
fn write_lines(table: &Table, buffer: &mut [u8])
    requires { length buffer.old ≡ saved_length table.now.n }
    ensures { let n = table.now.n in
        buffer.new ≡ sets buffer.old 19 (saved_lines n table.now.bytes.now n) }
{
    let stride = table.n as usize + cells::HEAD as usize;
    // Faster than `chunks_exact`, which divides.
    for (i, line) in table.bytes.chunks(stride).enumerate() {
        write_line(i, line, buffer);
    }
}

// The field of line i.
fn write_line(i: usize, line: &[u8], buffer: &mut [u8])
    requires station_low { i < 64 }
    requires line_short { length line.now ≤ 255 }
    requires field_inside { 19 + i * (length line.now + 4) + (length line.now + 4) ≤ length buffer.old }
    ensures { buffer.new ≡ sets buffer.old (19 + i * (length line.now + 4))
        (field_bytes (field line_tag (i ∷ line.now))) }
{
    let at = FRONT + i * (line.len() + BESIDE_LINE);
    put_head(buffer, at, LINE, line.len() as u16 + 1);
    buffer[at + 3] = i as u8;
    bytes::put_list(buffer, at + 4, line);
}

// The head of a field: its tag, and its length in two bytes, high byte first.
fn put_head(buffer: &mut [u8], at: usize, tag: u8, len: u16)
    requires { at + 3 ≤ length buffer.old }
    ensures { buffer.new ≡ sets buffer.old at (tag ∷ bytes_of 2 len) }
{
    buffer[at] = tag;
    bytes::put_list(buffer, at + 1, &len.to_be_bytes());
}
