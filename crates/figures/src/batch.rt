// Figures of one list of results, of two, and of kept totals.
ghost use Rattle.std.specs.Prelude.{◌≡◌, ◌++◌, false, ◌<◌};
ghost use Rattle.figures.specs.Batch.{figures};
ghost use Rattle.figures.specs.Totals.{overfull, variance_of, figures_of_totals};

use crate::{Figures, Fraction, Totals, adding, fractions};
use lists::refusal::Refusal;

// Figures of one list.
#[tactic(auto, using(crate::proofs::FiguresLaws::figures_ok, crate::proofs::FiguresLaws::figures_err))]
pub fn figures(results: &[u16]) -> Result<Figures, Refusal>
    ensures { result ≡ figures results.now }
{
    figures_of_totals(adding::totals(results)?)
}

// Figures of two lists: those of the one list that holds both. Their totals are joined; no list is read twice.
#[tactic(auto, using(crate::proofs::FiguresLaws::two_lists))]
pub fn figures_of_two(first: &[u16], second: &[u16]) -> Result<Figures, Refusal>
    ensures { result ≡ figures (first.now ++ second.now) }
{
    let of_first = adding::totals(first)?;
    let of_second = adding::totals(second)?;
    figures_of_totals(adding::join(of_first, of_second)?)
}

// Figures of kept totals.
#[tactic(auto, unfolding(crate::specs::Totals::figures_of_totals, crate::specs::Batch::batch_check))]
pub fn figures_of_totals(t: Totals) -> Result<Figures, Refusal>
    ensures { result ≡ figures_of_totals t }
{
    if t.count == 0 {
        return Err(Refusal::NoResult);
    }
    if adding::is_overfull(t) {
        return Err(Refusal::TooManyResults);
    }
    Ok(Figures {
        count: t.count,
        least: t.least,
        greatest: t.greatest,
        mean: fractions::lowest(t.sum, t.count),
        variance: variance_of(t),
    })
}

// The variance by the totals: (count * squares - sum * sum) / (count * count).
#[tactic(auto, using(crate::proofs::Bounds::variance_fits), unfolding(crate::specs::Totals::variance_of))]
fn variance_of(t: Totals) -> Fraction
    requires count_nonzero { 0 < t.count }
    requires not_overfull { overfull t ≡ false }
    ensures { result ≡ variance_of t }
{
    let whole = t.count * t.squares;
    let part = t.sum * t.sum;
    fractions::lowest(whole.saturating_sub(part), t.count * t.count)
}
