// Totals of a list of results, and their join.
ghost use Rattle.std.specs.Prelude.{◌≡◌, false, ◌≤◌, length};
ghost use Rattle.figures.specs.Batch.{most_results};
ghost use Rattle.figures.specs.Totals.{totals_of, of_both, joined, overfull, totals, join};

use crate::Totals;
use lists::refusal::Refusal;

// How many results are taken at most.
pub const MOST_RESULTS: u64 = 4096;

// The greatest sum, and the greatest sum of squares, that so many results of 16 bits can have.
const MOST_SUM: u64 = 268431360;

const MOST_SQUARES: u64 = 17591649177600;

// Totals of a list: those of no result are all 0. Refused for more than 4,096 results.
#[tactic(auto, unfolding(crate::specs::Totals::totals))]
pub fn totals(results: &[u16]) -> Result<Totals, Refusal>
    ensures { result ≡ totals results.now }
{
    if MOST_RESULTS < results.len() as u64 {
        return Err(Refusal::TooManyResults);
    }
    Ok(add_up(results))
}

// Join: the totals of the results of both. Refused where they are more than 4,096 results can have.
#[tactic(auto, using(crate::proofs::FiguresLaws::join_refused), unfolding(crate::specs::Totals::join))]
pub fn join(a: Totals, b: Totals) -> Result<Totals, Refusal>
    ensures { result ≡ join a b }
{
    if is_overfull(a) | is_overfull(b) {
        return Err(Refusal::TooManyResults);
    }
    let both = joined(a, b);
    if is_overfull(both) {
        return Err(Refusal::TooManyResults);
    }
    Ok(both)
}

// Whether the totals are more than 4,096 results can have.
#[tactic(auto, unfolding(crate::specs::Totals::overfull))]
pub(crate) fn is_overfull(t: Totals) -> bool
    ensures { result ≡ overfull t }
{
    (MOST_RESULTS < t.count) | (MOST_SUM < t.sum) | (MOST_SQUARES < t.squares)
}

// The totals of at most 4,096 results.
#[tactic(auto, using(crate::proofs::Joining::extremes), unfolding(crate::specs::Totals::totals_of))]
fn add_up(results: &[u16]) -> Totals
    requires { length results.now ≤ most_results }
    ensures { result ≡ totals_of results.now }
{
    if results.is_empty() {
        return Totals::default();
    }
    let mut sum = 0;
    let mut squares = 0;
    let mut least = results[0];
    let mut greatest = 0;
    for &result in results {
        let x = u64::from(result);
        sum += x;
        squares += x * x;
        least = least.min(result);
        greatest = greatest.max(result);
    }
    Totals {
        count: results.len() as u64,
        sum,
        squares,
        least: u64::from(least),
        greatest: u64::from(greatest),
    }
}

// The join of totals that are not overfull.
#[tactic(auto, using(crate::proofs::Bounds::overfull_fits), unfolding(crate::specs::Totals::joined))]
fn joined(a: Totals, b: Totals) -> Totals
    requires a_not_overfull { overfull a ≡ false }
    requires b_not_overfull { overfull b ≡ false }
    ensures { result ≡ joined a b }
{
    Totals {
        count: a.count + b.count,
        sum: a.sum + b.sum,
        squares: a.squares + b.squares,
        least: of_both(a.count, a.least, b.count, b.least, a.least.min(b.least)),
        greatest: of_both(
            a.count,
            a.greatest,
            b.count,
            b.greatest,
            a.greatest.max(b.greatest),
        ),
    }
}

// The least or the greatest of two batches, of which one has m results and the value a, the other n and b; `both` is what a and b give
// together. Numbers and not `Option`s: totals are the five numbers that C has, where a batch of 0 results has no least and no greatest.
#[tactic(auto, unfolding(crate::specs::Totals::of_both))]
fn of_both(m: u64, a: u64, n: u64, b: u64, both: u64) -> u64
    ensures { result ≡ of_both m a n b both }
{
    if m == 0 {
        return b;
    }
    if n == 0 {
        return a;
    }
    both
}
