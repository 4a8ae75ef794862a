// After how many rounds and grants one dead board is known everywhere under a bus master, where that is proved (specs/Bounds.antt).
ghost use Rattle.std.specs.Prelude.{◌≡◌, ◌≤◌};
ghost use Rattle.table.specs.declared.wiring.Wiring.TheVariants.{Cube};
ghost use Rattle.single_crash.specs.Bounds.{one_dead_on, one_dead_answer, BoundsHold};

use lists::refusal::Refusal;
use table::sizes;
use table::wiring::Wiring;

// The rounds, that of the crash among them, and the grants behind the crash, after which every live board suspects the dead one and nobody else.
#[derive(Clone, Copy, Debug, Default, PartialEq, Eq)]
pub struct OneDead {
    pub rounds: u32,
    pub grants: u32,
}

// The bounds of a plant of n boards, of which none is dead or suspected before; none at a size for which nothing is proved. Refusal 1.
#[tactic(auto, using(table::proofs::SizeLaws::size_top), unfolding(crate::specs::Bounds::one_dead_answer))]
pub fn one_dead(wiring: Wiring, n: usize) -> Result<Option<OneDead>, Refusal>
    ensures { result ≡ one_dead_answer wiring n }
{
    if !sizes::is_size(n) {
        return Err(Refusal::SizeOutOfRange);
    }
    Ok(one_dead_on(wiring, n as u8))
}

// The bounds of a size.
#[tactic(auto, unfolding(crate::specs::Bounds::one_dead_on))]
pub fn one_dead_on(wiring: Wiring, n: u8) -> Option<OneDead>
    ensures { result ≡ one_dead_on wiring n }
{
    if n < 4 {
        return None;
    }
    match wiring {
        Wiring::Ring => Some(OneDead {
            rounds: 3,
            grants: 5 * u32::from(n) - 8,
        }),
        Wiring::Cube => on_cube(n),
    }
}

// The same on the cube, of four boards or more.
#[tactic(auto, unfolding(crate::specs::Bounds::one_dead_on))]
fn on_cube(n: u8) -> Option<OneDead>
    requires { 4 ≤ n }
    ensures { result ≡ one_dead_on Cube n }
{
    if u16::from(n) != sizes::distances(n) {
        return None;
    }
    let sweeps = u32::from(sizes::dimension_of(n).0) + 2;
    Some(OneDead {
        rounds: 2,
        grants: (u32::from(n) - 1) * sweeps - 1,
    })
}

// What is claimed of them.
pub fn bounds_hold()
    // Every live board suspects the dead one, and nobody else, after so many rounds and after so many grants.
    ensures { BoundsHold }
{}
