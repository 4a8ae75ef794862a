// The reader, and the size of a saved plant, by which a caller lends a table of the right length.
ghost use Rattle.std.specs.Prelude.{◌≡◌, true, false, length};
ghost use Rattle.table.specs.Sizes.{is_size};
ghost use Rattle.saved.specs.Fields.{runs_past};
ghost use Rattle.saved.specs.Load.{file_lines, rest_check, rest_after, saved_size, load_answer, load_after};

use crate::edition::Edition;
use crate::{Loaded, first_pass, lines};
use lists::refusal::Refusal;
use table::lent::TableMut;
use table::wiring::Wiring;
use table::{cells, rules};

// The size of a saved plant, or its refusal 18, 21, 22, 19 or 1.
pub fn saved_size(file: &[u8]) -> Result<u8, Refusal>
    ensures { result ≡ saved_size file.now }
{
    let opened = first_pass::open(file, Edition::Two)?;
    Ok(opened.size)
}

// Reads a saved plant: its table into the buffer, which has just its length. A refused call changes no byte: the table is built and judged in
// one of our own.
pub fn load(file: &[u8], table: &mut [u8]) -> Result<Loaded, Refusal>
    ensures answer { result ≡ load_answer file.now (length table.old) }
    ensures table_after { table.new ≡ load_after file.now table.old }
{
    let opened = first_pass::open(file, Edition::Two)?;
    let mut own = [0u8; cells::GREATEST_TABLE];
    read_table(opened.size, file, table, &mut own)?;
    Ok(opened)
}

// That no field runs past the end is asked and is no ghost field of `Fields`, whose `next` is what finds it out.
//
// Reads the table of a file that has that size. Refusals 20, 2, 3, 4. It is built and judged in a buffer for the greatest table.
fn read_table(
    n: u8,
    file: &[u8],
    table: &mut [u8],
    own: &mut [u8; cells::GREATEST_TABLE],
) -> Result<(), Refusal>
    requires is_a_size { is_size n ≡ true }
    requires none_past_end { runs_past file.now ≡ false }
    ensures check { result ≡ rest_check n (file_lines file.now) (length table.old) }
    ensures table_after { table.new ≡ rest_after n (file_lines file.now) table.old }
{
    let own = &mut own[..cells::table_length(n)];
    let end = Wiring::Cube.end_byte(n);
    lines::build_table(
        file,
        Edition::Two,
        &mut TableMut {
            wiring: Wiring::Cube,
            n,
            end,
            bytes: own,
        },
    )?;
    if table.len() != own.len() {
        return Err(Refusal::TableLength);
    }
    rules::check_table(Wiring::Cube, n as usize, own)?;
    table.copy_from_slice(own);
    Ok(())
}
