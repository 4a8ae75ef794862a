// Fractions in lowest terms.
ghost use Rattle.std.specs.Prelude.{◌≡◌, ◌<◌};
ghost use Rattle.figures.specs.Fractions.{gcd, lowest};

use crate::Fraction;

// The fraction upper / lower in lowest terms.
#[tactic(auto, using(crate::proofs::Gcd::gcd_positive, crate::proofs::LowestTerms::lowest_as_is), unfolding(crate::specs::Fractions::lowest))]
pub(crate) fn lowest(upper: u64, lower: u64) -> Fraction
    requires { 0 < lower }
    ensures { result ≡ lowest upper lower }
{
    let divisor = gcd(upper, lower);
    // Many fractions are in lowest terms, and a division is slow.
    if divisor == 1 {
        return Fraction { upper, lower };
    }
    Fraction {
        upper: upper / divisor,
        lower: lower / divisor,
    }
}

// The greatest common divisor, by Euclid's algorithm. By 1 nothing need be divided.
#[tactic(auto, using(crate::proofs::Gcd::gcd_zero, crate::proofs::Gcd::gcd_one, crate::proofs::Gcd::gcd_step))]
fn gcd(a: u64, b: u64) -> u64
    ensures { result ≡ gcd a b }
{
    let mut x = a;
    let mut y = b;
    while y > 1 {
        (x, y) = (y, x % y);
    }
    if y == 0 { x } else { 1 }
}
