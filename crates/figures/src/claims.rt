// What is claimed of fractions (specs/Fractions.antt) and of the figures of a list (specs/Claims.antt), each a clause of a function that does
// nothing.

ghost use Rattle.figures.specs.Fractions.{LowestIsLowest, OnlyOneLowest, ZeroLowest};
ghost use Rattle.figures.specs.Claims.{MeanLowest, VarianceLowest, LeastExtreme, GreatestExtreme, KeptFigures, NotNegative};

// Figures of a list (specs/Claims.antt).
#[tactic(auto, using(crate::proofs::FiguresLaws::kept_figures, crate::proofs::Deviations::not_negative))]
pub fn figures_of_results()
    // The mean of at least one result is in lowest terms, and stands for the sum by the count.
    ensures mean_lowest { MeanLowest }
    // The variance of at least one result is in lowest terms, and stands for the mean of the squared deviations from the mean.
    ensures variance_lowest { VarianceLowest }
    // The least result is one of the results, and none is less.
    ensures least_extreme { LeastExtreme }
    // The greatest result is one of the results, and none is greater.
    ensures greatest_extreme { GreatestExtreme }
    // The figures of kept totals are those of the list that they were taken of.
    ensures kept_figures { KeptFigures }
    // By the count, the sum and the sum of squares of at least one result, the upper part of the variance is not negative.
    ensures not_negative { NotNegative }
{}

// Fractions (specs/Fractions.antt).
#[tactic(auto, using(crate::proofs::LowestTerms::lowest_unique, crate::proofs::Answers::zero_lowest))]
pub fn fractions()
    // The fraction that the definition `lowest` gives is in lowest terms and has the same value.
    ensures lowest_terms { LowestIsLowest }
    // There is only one fraction in lowest terms of a value.
    ensures lowest_unique { OnlyOneLowest }
    // Zero is 0/1.
    ensures zero_lowest { ZeroLowest }
{}
