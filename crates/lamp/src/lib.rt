// The doubt lamp of a lent table: whether some live board suspects another live board, and which one first.
//
// The call is `doubt_lamp`. It has no `requires`.
#![tactic(auto)]

pub mod claims;

ghost use Rattle.std.specs.Prelude.{◌≡◌};
ghost use Rattle.lamp.specs.Doubt.{first_doubt, doubt_lamp};

use lists::refusal::Refusal;
use table::Station;
use table::lent::Table;
use table::wiring::Wiring;

// The live station `by` suspects the live station `of`.
#[derive(Clone, Copy, Debug, PartialEq, Eq)]
pub struct Doubt {
    pub by: Station,
    pub of: Station,
}

// The first pair of a live station and a live one that it suspects, if there is one: refusals 1 to 4.
#[tactic(auto, unfolding(crate::specs::Doubt::doubt_lamp))]
pub fn doubt_lamp(wiring: Wiring, n: usize, table: &[u8]) -> Result<Option<Doubt>, Refusal>
    ensures { result ≡ doubt_lamp wiring n table.now }
{
    let table = Table::checked(wiring, n, table)?;
    Ok(first_doubt(&table))
}

// The first pair. It is looked for line by line, each row byte by byte, and nothing is read behind it.
fn first_doubt(table: &Table) -> Option<Doubt>
    ensures { result ≡ first_doubt table.now.n table.now.bytes.now }
{
    'found: {
        for i in 0..table.n {
            let by = Station(i);
            if !table.is_live(by) {
                continue;
            }
            for (k, byte) in table.row(by).iter().enumerate() {
                let of = Station(k as u8);
                if *byte == 1 && table.is_live(of) {
                    break 'found Some(Doubt { by, of });
                }
            }
        }
        None
    }
}
