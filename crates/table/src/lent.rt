// The lent table as a type: a wiring, a size, the end distance of both, computed once, and the bytes of a table of that size. That they fit each
// other are ghost fields, so that no function asks for them. That a line or column is there a method does ask, since it makes no test of its place.
ghost use Rattle.std.specs.Prelude.{◌≡◌, ◌+◌, ◌<◌, ◌==◌, true, length, IfOk};
ghost use Rattle.table.specs.Sizes.{is_size};
ghost use Rattle.table.specs.Wiring.{end_distance};
ghost use Rattle.table.specs.Table.{stride, table_length, cell, set_cell, status_column, row_start, row, live, next_distance, finished, suspects};
ghost use Rattle.table.specs.Status.{status_byte};
ghost use Rattle.std.specs.Result.{result_map_both};
ghost use Rattle.table.specs.Rules.{shape_check, table_check, row_rule, finished_if_live, round_over};

use crate::status::Status;
use crate::wiring::Wiring;
use crate::{Distance, Station, cells, rules};
use lists::refusal::Refusal;

// A table of n stations, to be read.
#[derive(Clone, Copy)]
pub struct Table<'a> {
    pub wiring: Wiring,
    pub n: u8,
    pub end: u8,
    pub bytes: &'a [u8],
    ghost sized: { is_size n ≡ true },
    ghost last_of_pass: { end ≡ end_distance wiring n },
    ghost fits: { length bytes.now ≡ table_length n },
}

// A table of n stations, to be written. A caller checks the bytes as a `Table` first, and then makes it of the same size and bytes.
#[derive(Drop)]
pub struct TableMut<'a> {
    pub wiring: Wiring,
    pub n: u8,
    pub end: u8,
    pub bytes: &'a mut [u8],
    ghost sized: { is_size n ≡ true },
    ghost last_of_pass: { end ≡ end_distance wiring n },
    ghost fits: { length bytes.now ≡ table_length n },
}

impl<'a> Table<'a> {
    // The lent bytes as a table of n stations: refusals 1 and 2. That the answer has that wiring, size and those bytes stands in a clause each, here
    // and in what hands a table on, so that a caller cites the one that it needs.
    #[tactic(auto, using(crate::proofs::Accepting::shape_ok, crate::proofs::SizeLaws::size_top))]
    pub fn of(wiring: Wiring, n: usize, bytes: &'a [u8]) -> Result<Table<'a>, Refusal>
        ensures check { result_map_both (λ t. tt) (λ r. r) result
            ≡ shape_check n (length bytes.now) }
        ensures same_wiring { IfOk result (λ t. t.wiring ≡ wiring) }
        ensures same_size { IfOk result (λ t. t.n ≡ n) }
        ensures same_bytes { IfOk result (λ t. t.bytes.now ≡ bytes.now) }
        ensures same_place { IfOk result (λ t. t.bytes.ref_ptr ≡ bytes.entry.ref_ptr) }
    {
        rules::check_shape(n, bytes.len())?;
        let n = n as u8;
        let end = wiring.end_byte(n);
        Ok(Table {
            wiring,
            n,
            end,
            bytes,
        })
    }

    // The lent bytes as a table of n stations on a wiring that obeys the line rules and whose round is not over: refusals 1 to 4.
    #[tactic(auto, unfolding(crate::specs::Rules::table_check))]
    pub fn checked(wiring: Wiring, n: usize, bytes: &'a [u8]) -> Result<Table<'a>, Refusal>
        ensures check { result_map_both (λ t. tt) (λ r. r) result ≡ table_check wiring n bytes.now }
        ensures same_wiring { IfOk result (λ t. t.wiring ≡ wiring) }
        ensures same_size { IfOk result (λ t. t.n ≡ n) }
        ensures same_bytes { IfOk result (λ t. t.bytes.now ≡ bytes.now) }
        ensures same_place { IfOk result (λ t. t.bytes.ref_ptr ≡ bytes.entry.ref_ptr) }
    {
        let table = Table::of(wiring, n, bytes)?;
        if !rules::all_lines(&table) {
            return Err(Refusal::LineRule);
        }
        if table.is_round_over() {
            return Err(Refusal::RoundNotClosed);
        }
        Ok(table)
    }

    // Byte c of line i.
    #[tactic(auto, using(crate::proofs::CellLaws::byte_inside), unfolding(crate::specs::Table::cell))]
    pub fn get(&self, i: Station, c: u16) -> u8
        requires line { i.0 < self.now.n }
        requires column { c < stride self.now.n }
        ensures { result ≡ cell self.now.n self.now.bytes.now i.0 c }
    {
        let at = cells::line_start(self.n, i) + c as usize;
        self.bytes[at]
    }

    // Whether station i is live.
    pub fn is_live(&self, i: Station) -> bool
        requires { i.0 < self.now.n }
        ensures { result ≡ live self.now.n self.now.bytes.now i.0 }
    {
        self.get(i, cells::STATUS) == u8::from(Status::Live)
    }

    // The next distance of station i.
    pub fn next_distance(&self, i: Station) -> Distance
        requires { i.0 < self.now.n }
        ensures { result.0 ≡ next_distance self.now.n self.now.bytes.now i.0 }
    {
        Distance(self.get(i, cells::NEXT))
    }

    // Whether station i has finished its pass.
    pub fn is_finished(&self, i: Station) -> bool
        requires { i.0 < self.now.n }
        ensures { result ≡ (finished self.now.n self.now.bytes.now i.0 == 1) }
    {
        self.get(i, cells::FINISHED) == 1
    }

    // Whether station i, if it is live, has finished its pass.
    pub fn finished_if_live(&self, i: Station) -> bool
        requires { i.0 < self.now.n }
        ensures { result ≡ finished_if_live self.now.n self.now.bytes.now i.0 }
    {
        !self.is_live(i) | self.is_finished(i)
    }

    // Whether some station is live and every live one has finished its pass. One pass answers both.
    #[tactic(auto, using(lists::proofs::Loops::loops, crate::proofs::Accepting::rounds))]
    pub fn is_round_over(&self) -> bool
        ensures { result ≡ round_over self.now.n self.now.bytes.now }
    {
        let mut some = false;
        for i in 0..self.n {
            if !self.finished_if_live(Station(i)) {
                return false;
            }
            some |= self.is_live(Station(i));
        }
        some
    }

    // Whether station i suspects station k.
    pub fn suspects(&self, i: Station, k: Station) -> bool
        requires line { i.0 < self.now.n }
        requires suspected { k.0 < self.now.n }
        ensures { result ≡ (suspects self.now.n self.now.bytes.now i.0 k.0 == 1) }
    {
        self.get(i, cells::HEAD + k.0 as u16) == 1
    }

    // The row of line i, as that part of the table.
    #[tactic(auto, using(crate::proofs::CellLaws::row_inside), unfolding(crate::specs::Table::row))]
    pub fn row(&self, i: Station) -> &'a [u8]
        requires { i.0 < self.now.n }
        ensures row_of_line { result.now ≡ row self.now.n self.now.bytes.now i.0 }
        ensures row_len { length result.now ≡ self.now.n }
        ensures same_memory { result.ref_ptr.0 ≡ self.now.bytes.ref_ptr.0 }
        ensures place_of_row { result.ref_ptr.1
            ≡ self.now.bytes.ref_ptr.1 + row_start self.now.n i.0 }
    {
        let a = cells::row_start(self.n, i);
        let e = a + self.n as usize;
        &self.bytes[a..e]
    }

    // Whether the row of station i keeps its rules.
    #[tactic(auto, using(crate::proofs::CellLaws::row_rule_of_row))]
    pub fn keeps_row_rule(&self, i: Station) -> bool
        requires { i.0 < self.now.n }
        ensures { result ≡ row_rule self.now.n self.now.bytes.now i.0 }
    {
        rules::keeps_row_rule(self.row(i), i)
    }
}

impl<'a> TableMut<'a> {
    ghost use Rattle.std.proofs.lemmas.List.Edits.{sets};
    ghost use Rattle.table.specs.Table.{line_start};
    ghost use Rattle.table.specs.Lent.{IsSameLoan};

    // The table, to be read.
    pub fn read(&self) -> Table<'_>
        ensures same_wiring { result.wiring ≡ self.now.wiring }
        ensures same_size { result.n ≡ self.now.n }
        ensures same_end { result.end ≡ self.now.end }
        ensures same_bytes { result.bytes.now ≡ self.now.bytes.now }
    {
        Table {
            wiring: self.wiring,
            n: self.n,
            end: self.end,
            bytes: &*self.bytes,
        }
    }

    // Writes byte c of line i.
    #[tactic(auto, using(crate::proofs::CellLaws::byte_inside), unfolding(crate::specs::Table::set_cell))]
    pub fn put(&mut self, i: Station, c: u16, v: u8)
        requires line { i.0 < self.old.n }
        requires column { c < stride self.old.n }
        ensures same_loan { IsSameLoan self.old self.new }
        ensures byte_written { self.new.bytes.now ≡ set_cell self.old.n self.old.bytes.now i.0 c v }
    {
        let at = cells::line_start(self.n, i) + c as usize;
        self.bytes[at] = v;
    }

    // The status of station i.
    pub fn set_status(&mut self, i: Station, status: Status)
        requires { i.0 < self.old.n }
        ensures same_loan { IsSameLoan self.old self.new }
        ensures status_written { self.new.bytes.now
            ≡ set_cell self.old.n self.old.bytes.now i.0 status_column (status_byte status) }
    {
        self.put(i, cells::STATUS, u8::from(status));
    }

    // Writes line i.
    pub fn put_line(&mut self, i: Station, line: &[u8])
        requires station { i.0 < self.old.n }
        requires width { length line.now ≡ stride self.old.n }
        ensures same_loan { IsSameLoan self.old self.new }
        ensures line_written { self.new.bytes.now
            ≡ sets self.old.bytes.now (line_start self.old.n i.0) line.now }
    {
        let a = cells::line_start(self.n, i);
        let e = a + line.len();
        self.bytes[a..e].copy_from_slice(line);
    }
}
