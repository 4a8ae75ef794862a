// The converter of files of edition 1, and the length of what it writes, by which a caller lends a buffer of just that length.
ghost use Rattle.std.specs.Prelude.{◌≡◌, length};
ghost use Rattle.saved.specs.Convert.{convert_check, convert_after, converted_length};

use crate::edition::Edition;
use crate::{first_pass, lines, save};
use lists::refusal::Refusal;
use table::cells;
use table::lent::TableMut;
use table::wiring::Wiring;

// The length of the file of edition 2, or the refusal 18, 22, 19 or 1.
pub fn converted_length(file: &[u8]) -> Result<usize, Refusal>
    ensures { result ≡ converted_length file.now }
{
    let opened = first_pass::open(file, Edition::One)?;
    Ok(save::saved_length(opened.size))
}

// Writes a file of edition 1 as one of edition 2, into the buffer, which has just its length. The table is built with the heads of edition 2, and
// saved as any other: by that its rules are judged.
pub fn convert(file: &[u8], buffer: &mut [u8]) -> Result<(), Refusal>
    ensures check { result ≡ convert_check file.now (length buffer.old) }
    ensures buffer_after { buffer.new ≡ convert_after file.now buffer.old }
{
    let opened = first_pass::open(file, Edition::One)?;
    let mut own = [0u8; cells::GREATEST_TABLE];
    let own = &mut own[..cells::table_length(opened.size)];
    let end = Wiring::Cube.end_byte(opened.size);
    lines::build_table(
        file,
        Edition::One,
        &mut TableMut {
            wiring: Wiring::Cube,
            n: opened.size,
            end,
            bytes: own,
        },
    )?;
    save::save(opened.size as usize, own, opened.tally, buffer)
}
