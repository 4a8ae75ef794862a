// The mender: after a brownout it makes a lent table obey all rules, and lists each byte that it changed.
//
// The call is `mend`. It has no `requires`.
#![tactic(auto)]

pub mod claims;
mod lines;
mod mending;
pub mod report;

ghost use Rattle.std.specs.Prelude.{◌≡◌, ◌*◌, ◌≤◌, true, length};
ghost use Rattle.table.specs.Sizes.{is_size};
ghost use Rattle.table.specs.Table.{table_length};
ghost use Rattle.mender.specs.Mended.{mended};
ghost use Rattle.mender.specs.Report.{mends, report_of, mend, mended_after, report_after};

use crate::mending::Mending;
use lists::refusal::Refusal;
use table::lent::Table;
use table::wiring::Wiring;

// Mends the table, lists the changes in the report, and answers how many they are: refusals 1, 2 and 23.
#[tactic(auto, unfolding(crate::specs::Report::mend, crate::specs::Report::mended_after, crate::specs::Report::report_after))]
pub fn mend(wiring: Wiring, n: usize, table: &mut [u8], report: &mut [u8]) -> Result<usize, Refusal>
    ensures number_of_changes { result ≡ mend wiring n table.old (length report.old) }
    ensures mended_table { table.new ≡ mended_after wiring n table.old (length report.old) }
    ensures listed_changes { report.new ≡ report_after wiring n table.old report.old }
{
    let lent = Table::of(wiring, n, table)?;
    if report.len() / 4 < lent.bytes.len() {
        return Err(Refusal::ReportTooShort);
    }
    let n = lent.n;
    Ok(mend_checked(wiring, n, table, report))
}

// The same of what is not refused.
fn mend_checked(wiring: Wiring, n: u8, table: &mut [u8], report: &mut [u8]) -> usize
    requires sized { is_size n ≡ true }
    requires fits { length table.old ≡ table_length n }
    requires room { 4 * table_length n ≤ length report.old }
    ensures number_of_changes { result ≡ length (mends wiring n table.old) }
    ensures mended_table { table.new ≡ mended wiring n table.old }
    ensures listed_changes { let changes = mends wiring n table.old in
        report.new ≡ report_of changes (length report.old) }
{
    let end = wiring.end_byte(n);
    let over = lines::is_over(&Table {
        wiring,
        n,
        end,
        bytes: table,
    });
    let mut mending = Mending {
        wiring,
        n,
        end,
        table,
        report,
        changes: 0,
    };
    mending.mend_lines(over);
    mending.clear_rest();
    mending.changes
}
