// A table on its way from what was lent to what is mended, with the report of what was changed so far.
ghost use Rattle.std.specs.Prelude.{◌≡◌, ◌+◌, ◌*◌, ◌<◌, ◌≤◌, true, length};
ghost use Rattle.table.specs.Sizes.{is_size};
ghost use Rattle.table.specs.Wiring.{end_distance};
ghost use Rattle.table.specs.Table.{table_length};

use crate::lines;
use crate::report::Change;
use table::lent::Table;
use table::wiring::Wiring;
use table::{Station, cells};

// A lent table and a lent report that has room for a change of each byte, and how many changes the report has so far.
#[derive(Drop)]
pub(crate) struct Mending<'a> {
    pub wiring: Wiring,
    pub n: u8,
    pub end: u8,
    pub table: &'a mut [u8],
    pub report: &'a mut [u8],
    pub changes: usize,
    ghost sized: { is_size n ≡ true },
    ghost last_of_pass: { end ≡ end_distance wiring n },
    ghost fits: { length table.now ≡ table_length n },
    ghost room: { 4 * table_length n ≤ length report.now },
    ghost few: { changes ≤ table_length n },
}

impl<'a> Mending<'a> {
    ghost use Rattle.std.specs.Prelude.{◌≡◌, ◌+◌, ◌-◌, ◌*◌, ◌<◌, ◌≤◌, ◌++◌, length, slice_index, flat_map, take, replicate, set};
    ghost use Rattle.std.proofs.lemmas.List.Edits.{sets};
    ghost use Rattle.mender.specs.Mended.{table_of, mended_byte};
    ghost use Rattle.mender.specs.Report.{change_bytes, changes};
    ghost use Rattle.mender.specs.Mending.{IsSameMending, with_change, count_with};

    // The table, to be read.
    fn read(&self) -> Table<'_>
        ensures same_wiring { result.wiring ≡ self.now.wiring }
        ensures same_size { result.n ≡ self.now.n }
        ensures same_bytes { result.bytes.now ≡ self.now.table.now }
    {
        Table {
            wiring: self.wiring,
            n: self.n,
            end: self.end,
            bytes: &*self.table,
        }
    }

    // Writes the mended byte of a place, and lists it if another one was there.
    #[tactic(auto, using(crate::proofs::Progress::place_low))]
    fn put(&mut self, at: usize, byte: u8)
        requires inside { at < length self.old.table.now }
        requires listed { self.old.changes ≤ at }
        ensures same_mending { IsSameMending self.old self.new }
        ensures byte_written { self.new.table.now ≡ set self.old.table.now at byte }
        ensures change_listed { let before = slice_index self.old.table.now at in
            self.new.report.now ≡ with_change self.old.report.now self.old.changes
            (record { offset = at; before = before; after = byte }) }
        ensures change_counted { let before = slice_index self.old.table.now at in
            self.new.changes ≡ count_with self.old.changes
            (record { offset = at; before = before; after = byte }) }
    {
        let before = self.table[at];
        if before == byte {
            return;
        }
        let change = Change {
            offset: at as u16,
            before,
            after: byte,
        };
        let place = 4 * self.changes;
        // By index, which is faster here than `copy_from_slice`.
        let [high, low, old, new] = change.bytes();
        self.report[place] = high;
        self.report[place + 1] = low;
        self.report[place + 2] = old;
        self.report[place + 3] = new;
        self.table[at] = byte;
        self.changes += 1;
    }

    // Puts each byte of the table, by rising offset.
    pub fn mend_lines(&mut self, over: bool)
        requires { self.old.changes ≡ 0 }
        ensures same_mending { IsSameMending self.old self.new }
        ensures bytes_mended { self.new.table.now
            ≡ table_of self.old.n (mended_byte self.old.wiring self.old.n self.old.table.now over) }
        ensures changes_listed { let listed = changes self.old.table.now self.new.table.now in
            self.new.report.now ≡ sets self.old.report.now 0 (flat_map change_bytes listed) }
        ensures changes_counted { self.new.changes
            ≡ length (changes self.old.table.now self.new.table.now) }
    {
        let n = self.n;
        for i in 0..n {
            let line = cells::line_start(n, Station(i));
            let head = lines::mended_head(&self.read(), Station(i), over);
            for (c, byte) in head.iter().enumerate() {
                self.put(line + c, *byte);
            }
            // Most rows keep their rules. To ask that first takes many bytes at a time.
            if self.read().keeps_row_rule(Station(i)) {
                continue;
            }
            for k in 0..n {
                let at = line + cells::HEAD as usize + k as usize;
                let byte = lines::mended_suspicion(Station(i), Station(k), self.table[at]);
                self.put(at, byte);
            }
        }
    }

    // Zeros behind the changes.
    pub fn clear_rest(&mut self)
        ensures same_mending { IsSameMending self.old self.new }
        ensures same_table { self.new.table.now ≡ self.old.table.now }
        ensures same_count { self.new.changes ≡ self.old.changes }
        ensures rest_cleared { let listed = 4 * self.old.changes in
            self.new.report.now ≡ take listed self.old.report.now
            ++ replicate (length self.old.report.now - listed) 0 }
    {
        let listed = 4 * self.changes;
        self.report[listed..].fill(0);
    }
}
