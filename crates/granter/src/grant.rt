// The grant: the next station, going round, that is live and unfinished.
ghost use Rattle.std.specs.Prelude.{◌≡◌, ◌≤◌, ◌<◌, true, false, IfSome, IfNone, IfOk};
ghost use Rattle.std.specs.Result.{result_map_both};
ghost use Rattle.table.specs.Rules.{some_live, round_over};
ghost use Rattle.granter.specs.Grant.{first_from, following, granted, last_number, last_check, grant_check, grant_answer};

use lists::refusal::Refusal;
use table::Station;
use table::lent::Table;
use table::wiring::Wiring;

// The last granted number where none was granted yet.
pub const NO_GRANT: usize = 255;

// The station that is granted after the last one.
#[tactic(auto, using(crate::proofs::GrantLaws::grant_ok, crate::proofs::GrantLaws::grantable_open), unfolding(crate::specs::Grant::grant_answer))]
pub fn grant(wiring: Wiring, n: usize, table: &[u8], last: usize) -> Result<Station, Refusal>
    ensures { result_map_both (λ x. x.0) (λ r. r) result ≡ grant_answer wiring n table.now last }
{
    let (lent, last) = check_grant(wiring, n, table, last)?;
    Ok(next_station(&lent, last))
}

// Refusals 1 to 4, 16 and 17; answers the checked table and the last granted station.
#[tactic(auto, unfolding(crate::specs::Grant::grant_check))]
pub(crate) fn check_grant(
    wiring: Wiring,
    n: usize,
    table: &[u8],
    last: usize,
) -> Result<(Table<'_>, Option<Station>), Refusal>
    ensures check { result_map_both (λ s. tt) (λ r. r) result ≡ grant_check wiring n table.now last }
    ensures same_wiring { IfOk result (λ s. s.0.wiring ≡ wiring) }
    ensures same_size { IfOk result (λ s. s.0.n ≡ n) }
    ensures same_bytes { IfOk result (λ s. s.0.bytes.now ≡ table.now) }
    ensures same_last { IfOk result (λ s. last_number s.1 ≡ last) }
    ensures last_below { IfOk result (λ s. IfSome s.1 (λ i. i.0 < n)) }
{
    let lent = Table::checked(wiring, n, table)?;
    let last = last_granted(lent.n, last)?;
    if !some_live(&lent) {
        return Err(Refusal::NoneLive);
    }
    Ok((lent, last))
}

// The last granted station, none at 255: refusal 16.
fn last_granted(n: u8, last: usize) -> Result<Option<Station>, Refusal>
    ensures check { result_map_both (λ s. tt) (λ r. r) result ≡ last_check n last }
    ensures same_last { IfOk result (λ s. last_number s ≡ last) }
    ensures last_below { IfOk result (λ s. IfSome s (λ i. i.0 < n)) }
{
    if last == NO_GRANT {
        return Ok(None);
    }
    if n as usize <= last {
        return Err(Refusal::LastGranted);
    }
    Ok(Some(Station(last as u8)))
}

// The number of the last granted station, 255 where there is none.
pub(crate) fn last_number(last: Option<Station>) -> usize
    ensures { result ≡ last_number last }
{
    match last {
        None => NO_GRANT,
        Some(station) => usize::from(station.0),
    }
}

// The next station after the last granted one, going round, that is live and unfinished.
#[tactic(auto, using(table::proofs::SizeLaws::size_top))]
pub(crate) fn next_station(table: &Table, last: Option<Station>) -> Station
    requires round_open { round_over table.now.n table.now.bytes.now ≡ false }
    requires someone_live { some_live table.now.n table.now.bytes.now ≡ true }
    requires last_below { IfSome last (λ i. i.0 < table.now.n) }
    ensures { result.0 ≡ granted table.now.n table.now.bytes.now (last_number last) }
{
    if let Some(next) = first_from(table, following(last)) {
        return next;
    }
    first_from(table, Station(0)).unwrap()
}

// The station that is looked at first.
#[tactic(auto, unfolding(crate::specs::Grant::following))]
fn following(last: Option<Station>) -> Station
    requires { IfSome last (λ i. i.0 < 255) }
    ensures { result.0 ≡ following (last_number last) }
{
    match last {
        None => Station(0),
        Some(station) => Station(station.0 + 1),
    }
}

// The first station from `from` on, and below n, that is live and unfinished, if there is one.
fn first_from(table: &Table, from: Station) -> Option<Station>
    ensures first { IfSome result (λ i. i.0 ≡ first_from table.now.n table.now.bytes.now from.0) }
    ensures below { IfSome result (λ i. i.0 < table.now.n) }
    ensures none { IfNone result (table.now.n ≤ first_from table.now.n table.now.bytes.now from.0) }
{
    for i in from.0..table.n {
        if !table.finished_if_live(Station(i)) {
            return Some(Station(i));
        }
    }
    None
}

// Whether a station is live.
pub(crate) fn some_live(table: &Table) -> bool
    ensures { result ≡ some_live table.now.n table.now.bytes.now }
{
    for i in 0..table.n {
        if table.is_live(Station(i)) {
            return true;
        }
    }
    false
}
