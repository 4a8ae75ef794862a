// Figures over a batch of results: count, least, greatest, mean and variance of unsigned 16-bit numbers.
//
// The calls: batch::figures, batch::figures_of_two, batch::figures_of_totals, adding::totals and adding::join. None has a `requires`.
// The functions of `claims` do nothing: their clauses are claims of fractions and figures.
#![tactic(auto)]

pub mod adding;
pub mod batch;
pub mod claims;
mod fractions;

// A fraction. In an answer it is in lowest terms with a positive lower part.
#[derive(Clone, Copy, Debug, Default, PartialEq, Eq)]
pub struct Fraction {
    pub upper: u64,
    pub lower: u64,
}

// The totals of a batch: how many results, their sum, the sum of their squares, the least and the greatest, which are 0 for no result.
#[derive(Clone, Copy, Debug, Default, PartialEq, Eq)]
pub struct Totals {
    pub count: u64,
    pub sum: u64,
    pub squares: u64,
    pub least: u64,
    pub greatest: u64,
}

// What is answered of a batch: the seven figures.
#[derive(Clone, Copy, Debug, Default, PartialEq, Eq)]
pub struct Figures {
    pub count: u64,
    pub least: u64,
    pub greatest: u64,
    pub mean: Fraction,
    pub variance: Fraction,
}
