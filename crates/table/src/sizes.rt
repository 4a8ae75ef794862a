// Sizes, levels and distances.
ghost use Rattle.std.specs.Prelude.{◌≡◌, ◌≤◌};
ghost use Rattle.table.specs.Sizes.{is_size, level, dimension, distances};

use crate::{Distance, Level};

// Whether n is a plant's size.
#[tactic(auto, unfolding(crate::specs::Sizes::is_size))]
pub fn is_size(n: usize) -> bool
    ensures { result ≡ is_size n }
{
    (2..=64).contains(&n)
}

// The level of a distance.
pub fn level_of(m: Distance) -> Level
    ensures is_level { result.0 ≡ level m.0 }
    ensures upper_bound { result.0 ≤ 8 }
{
    let zeros = u8::leading_zeros(m.0);
    Level((8 - zeros) as u8)
}

// d, the greatest level of a plant of n stations.
#[tactic(auto, unfolding(crate::specs::Sizes::dimension))]
pub fn dimension_of(n: u8) -> Level
    ensures { result.0 ≡ dimension n }
{
    level_of(Distance(n.saturating_sub(1)))
}

// How many distances there are in a plant of n stations, 0 included.
pub fn distances(n: u8) -> u16
    ensures number_of_distances { result ≡ distances n }
    ensures upper_bound { result ≤ 256 }
{
    let d = dimension_of(n);
    1u16 << d.0
}
