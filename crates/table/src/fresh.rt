// The call for a fresh table.
ghost use Rattle.std.specs.Prelude.{◌≡◌, length};
ghost use Rattle.lists.specs.Search.{list_of};
ghost use Rattle.table.specs.Table.{stride, table_length};
ghost use Rattle.table.specs.Rules.{shape_check};
ghost use Rattle.table.specs.Fresh.{fresh_byte, fresh_table, fresh_after};

use crate::{Station, cells, rules};
use lists::refusal::Refusal;

// Fills the table: every line live, next distance 1, byte 4 255, all else 0.
#[tactic(auto, using(crate::proofs::Accepting::shape_ok, crate::proofs::SizeLaws::size_top), unfolding(crate::specs::Fresh::fresh_after))]
pub fn fresh_table(n: usize, table: &mut [u8]) -> Result<(), Refusal>
    ensures check { result ≡ shape_check n (length table.old) }
    ensures table_after { table.new ≡ fresh_after n table.old }
{
    rules::check_shape(n, table.len())?;
    write_fresh(n as u8, table);
    Ok(())
}

// Writes the lines of a table of n stations.
fn write_fresh(n: u8, table: &mut [u8])
    requires { length table.old ≡ table_length n }
    ensures { table.new ≡ fresh_table n }
{
    for i in 0..n {
        let a = cells::line_start(n, Station(i));
        let e = a + cells::line_length(n);
        write_line(n, &mut table[a..e]);
    }
}

// Fills a line of a table of n stations.
pub fn write_line(n: u8, line: &mut [u8])
    requires { length line.old ≡ stride n }
    ensures { line.new ≡ list_of (fresh_byte n) (stride n) }
{
    line.fill(0);
    line[cells::NEXT as usize] = 1;
    line[cells::TOLD_BY as usize] = cells::TOLD_BY_NONE;
}
