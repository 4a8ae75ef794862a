// The lengths of tables of two, four, eight and eleven boards. A constant may call no function here, so not `cells::table_length`.

use table::cells;

pub const TWO: usize = 2 * (2 + cells::HEAD as usize);

pub const FOUR: usize = 4 * (4 + cells::HEAD as usize);

pub const EIGHT: usize = 8 * (8 + cells::HEAD as usize);

pub const ELEVEN: usize = 11 * (11 + cells::HEAD as usize);
