// The bytes of the lent table, by line and column.
ghost use Rattle.std.specs.Prelude.{◌≡◌, ◌+◌, ◌*◌, ◌≤◌};
ghost use Rattle.table.specs.Table.{head, stride, table_length, line_start, row_start};

use crate::Station;

// The columns of a line's head. They are numbers, and no enum: a column is a byte's place in its line, and those from HEAD on are the row's.
pub const STATUS: u16 = 0;

pub const NEXT: u16 = 1;

pub const FINISHED: u16 = 2;

pub const TESTS: u16 = 3;

pub const TOLD_BY: u16 = 4;

pub const ROUNDS_AGO: u16 = 5;

// Byte 4 where no station told this one to leave, and where that was never recorded.
pub const TOLD_BY_NONE: u8 = 255;

pub const NOT_RECORDED: u8 = 254;

// Where byte 5 stops.
pub const ROUNDS_AGO_TOP: u8 = 255;

// How many bytes of a line stand before its row.
pub const HEAD: u16 = 6;

// The length of the greatest table, that of 64 stations.
pub const GREATEST_TABLE: usize = 64 * (64 + HEAD as usize);

// The length of a line of a table of n stations.
pub fn line_length(n: u8) -> usize
    ensures { result ≡ stride n }
{
    n as usize + HEAD as usize
}

// The length of a table of n stations.
#[tactic(auto, unfolding(crate::specs::Table::table_length, crate::specs::Table::line_start))]
pub fn table_length(n: u8) -> usize
    ensures { result ≡ table_length n }
{
    lines_length(n, n)
}

// The length of some lines of a table of n stations.
#[tactic(auto, unfolding(crate::specs::Table::line_start))]
fn lines_length(lines: u8, n: u8) -> usize
    ensures len_of_lines { result ≡ line_start n lines }
    ensures upper_bound { result ≤ 255 * stride 255 }
{
    lines as usize * line_length(n)
}

// Where line i begins.
pub fn line_start(n: u8, i: Station) -> usize
    ensures start_of_line { result ≡ line_start n i.0 }
    ensures upper_bound { result ≤ 255 * stride 255 }
{
    lines_length(i.0, n)
}

// Where the row of line i begins.
pub fn row_start(n: u8, i: Station) -> usize
    ensures start_of_row { result ≡ row_start n i.0 }
    ensures upper_bound { result ≤ 255 * stride 255 + head }
{
    line_start(n, i) + HEAD as usize
}
