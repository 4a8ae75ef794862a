// Whom a board does not test by its row, and who stands ahead.
ghost use Rattle.std.specs.Prelude.{◌≡◌, map, is_some, IfSome};
ghost use Rattle.station.specs.Tests.{answer};
ghost use Rattle.station.specs.Calls.{answer_byte};
ghost use Rattle.slots.specs.Slots.{is_untested, untested, ahead};

use arrayvec::ArrayVec;
use station::{DueOrAhead, due, groups};
use table::{Distance, Station, sizes};

// A board that is not tested, and who stands ahead.
#[derive(Clone, Copy, Debug, Default, PartialEq, Eq)]
pub struct Untested {
    pub board: Station,
    pub ahead: Station,
}

// Whom i of n stations does not test by its row of n bytes, in ascending distance, and who stands ahead of each. At most 255, as in `list_tests`.
pub fn list_untested(n: u8, row: &[u8], i: Station) -> ArrayVec<Untested, 255>
    ensures boards { map (λ u. u.board.0) result.items ≡ untested n row.now i.0 }
    ensures ahead { map (λ u. u.ahead.0) result.items ≡ ahead n row.now i.0 }
{
    let end = sizes::distances(n);
    let mut list = ArrayVec::new();
    for m in 0..end {
        let m = Distance(m as u8);
        if let Some(ahead) = ahead_at(row, i, m) {
            let board = groups::station_at(i, m);
            list.push(Untested { board, ahead });
        }
    }
    list
}

// Who stands ahead at distance m from i, if another station stands there and i does not test it.
fn ahead_at(row: &[u8], i: Station, m: Distance) -> Option<Station>
    ensures untested { is_some result ≡ is_untested row.now i.0 m.0 }
    ensures ahead { IfSome result (λ x. x.0 ≡ answer_byte (answer row.now i.0 m.0)) }
{
    if m.0 == 0 {
        return None;
    }
    if !due::stands(row, i, m) {
        return None;
    }
    match due::due_or_ahead(row, i, m) {
        DueOrAhead::Due => None,
        DueOrAhead::Ahead(x) => Some(x),
    }
}
