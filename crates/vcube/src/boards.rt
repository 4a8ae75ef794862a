// The calls of a board on its own line, as include/vcube.h declares them: each returns 0 or the number of its refusal, as those in lib.rt do.
ghost use Rattle.std.specs.Prelude.{◌≡◌, length};
ghost use Rattle.std.specs.Result.{result_unwrap_or, result_map_both};
ghost use Rattle.lists.specs.Refusal.{number_of_result};
ghost use Rattle.station.specs.Outcome.{outcome_byte};
ghost use Rattle.board.specs.Calls.{place_check, line_check, row_check, sent_check, exchanged_check};
ghost use Rattle.board.specs.Calls.{next_answer, replied_answer, not_replied_answer};
ghost use Rattle.board.specs.Calls.{fresh_after, row_sent, replied_after, not_replied_after, told_after, exchanged_after, closed_after};
ghost use Rattle.vcube.specs.Exports.{on_wiring, no_such_wiring, station_number};

use crate::{NO_STATION, NO_SUCH_WIRING, byte_of};
use board::calls;
use lists::refusal::{Refusal, number_of, parts};
use station::outcome::Outcome;
use table::Station;
use table::wiring::Wiring;

// Board, fresh: the line becomes a line of a fresh table.
#[tactic(auto, using(crate::proofs::OnWiring::on_each, crate::proofs::NarrowBoard::place_narrow, crate::proofs::NarrowBoard::fresh_narrow))]
#[unsafe(no_mangle)]
pub extern "C" fn vcube_board_fresh(wiring: usize, n: usize, own: usize, line: &mut [u8]) -> u8
    ensures number { let len = length line.old in
        result ≡ on_wiring wiring no_such_wiring (λ w. number_of_result (place_check n own len)) }
    ensures line_after { line.new ≡ on_wiring wiring line.old (λ w. fresh_after n own line.old) }
{
    let Ok(wiring) = Wiring::try_from(wiring) else {
        return NO_SUCH_WIRING;
    };
    number_of(calls::fresh(wiring, n, Station(byte_of(own)), line))
}

// Board, next: the board that the next turn tests into tested; 255 where there is none, 0 where it is refused.
#[tactic(auto, using(crate::proofs::OnWiring::on_each, crate::proofs::NarrowBoard::next_narrow))]
#[unsafe(no_mangle)]
pub extern "C" fn vcube_board_next(
    wiring: usize,
    n: usize,
    own: usize,
    line: &[u8],
    tested: &mut usize,
) -> u8
    ensures number { result
        ≡ on_wiring wiring no_such_wiring (λ w. number_of_result (next_answer w n own line.now)) }
    ensures tested_after { tested.new
        ≡ on_wiring wiring 0 (λ w. station_number (next_answer w n own line.now)) }
{
    let Ok(wiring) = Wiring::try_from(wiring) else {
        *tested = 0;
        return NO_SUCH_WIRING;
    };
    let (number, next) = match calls::next(wiring, n, Station(byte_of(own)), line) {
        Ok(Some(station)) => (0, station.0),
        Ok(None) => (0, NO_STATION),
        Err(refusal) => (refusal.number(), 0),
    };
    *tested = usize::from(next);
    number
}

// Board, row: the board's row, packed, into a buffer of just its length.
#[tactic(auto, using(crate::proofs::OnWiring::on_each, crate::proofs::NarrowBoard::row_check_narrow, crate::proofs::NarrowBoard::row_sent_narrow))]
#[unsafe(no_mangle)]
pub extern "C" fn vcube_board_row(
    wiring: usize,
    n: usize,
    own: usize,
    line: &[u8],
    packed: &mut [u8],
) -> u8
    ensures number { let room = length packed.old in
        result ≡ on_wiring wiring no_such_wiring (λ w. number_of_result (row_check w n own line.now room)) }
    ensures packed_after { packed.new
        ≡ on_wiring wiring packed.old (λ w. row_sent w n own line.now packed.old) }
{
    let Ok(wiring) = Wiring::try_from(wiring) else {
        return NO_SUCH_WIRING;
    };
    number_of(calls::row(wiring, n, Station(byte_of(own)), line, packed))
}

// Board, replied: the turn, with the reply of the board that it tests; its outcome into outcome, 0 where it is refused.
#[tactic(auto, using(crate::proofs::OnWiring::on_each, crate::proofs::NarrowBoard::replied_narrow, crate::proofs::NarrowBoard::replied_after_narrow))]
#[unsafe(no_mangle)]
pub extern "C" fn vcube_board_replied(
    wiring: usize,
    n: usize,
    own: usize,
    line: &mut [u8],
    packed: &[u8],
    outcome: &mut usize,
) -> u8
    ensures number { result
        ≡ on_wiring wiring no_such_wiring (λ w. number_of_result (replied_answer w n own line.old packed.now)) }
    ensures outcome_after { outcome.new
        ≡ on_wiring wiring 0 (λ w. result_unwrap_or (replied_answer w n own line.old packed.now) 0) }
    ensures line_after { line.new
        ≡ on_wiring wiring line.old (λ w. replied_after w n own line.old packed.now) }
{
    let Ok(wiring) = Wiring::try_from(wiring) else {
        *outcome = 0;
        return NO_SUCH_WIRING;
    };
    answer_turn(
        calls::replied(wiring, n, Station(byte_of(own)), line, packed),
        outcome,
    )
}

// Board, not replied: the turn without a reply; its outcome into outcome, 0 where it is refused.
#[tactic(auto, using(crate::proofs::OnWiring::on_each, crate::proofs::NarrowBoard::not_replied_laws))]
#[unsafe(no_mangle)]
pub extern "C" fn vcube_board_not_replied(
    wiring: usize,
    n: usize,
    own: usize,
    line: &mut [u8],
    outcome: &mut usize,
) -> u8
    ensures number { result
        ≡ on_wiring wiring no_such_wiring (λ w. number_of_result (not_replied_answer w n own line.old)) }
    ensures outcome_after { outcome.new
        ≡ on_wiring wiring 0 (λ w. result_unwrap_or (not_replied_answer w n own line.old) 0) }
    ensures line_after { line.new ≡ on_wiring wiring line.old (λ w. not_replied_after w n own line.old) }
{
    let Ok(wiring) = Wiring::try_from(wiring) else {
        *outcome = 0;
        return NO_SUCH_WIRING;
    };
    answer_turn(
        calls::not_replied(wiring, n, Station(byte_of(own)), line),
        outcome,
    )
}

// Board, told: the board leaves, told by another.
#[tactic(auto, using(crate::proofs::OnWiring::on_each, crate::proofs::NarrowBoard::sent_narrow, crate::proofs::NarrowBoard::told_narrow))]
#[unsafe(no_mangle)]
pub extern "C" fn vcube_board_told(
    wiring: usize,
    n: usize,
    own: usize,
    line: &mut [u8],
    by: usize,
) -> u8
    ensures number { result
        ≡ on_wiring wiring no_such_wiring (λ w. number_of_result (sent_check w n own line.old by)) }
    ensures line_after { line.new ≡ on_wiring wiring line.old (λ w. told_after w n own line.old by) }
{
    let Ok(wiring) = Wiring::try_from(wiring) else {
        return NO_SUCH_WIRING;
    };
    let by = Station(byte_of(by));
    number_of(calls::told(wiring, n, Station(byte_of(own)), line, by))
}

// Board, exchanged: the board joins the row that another sent into its own.
#[tactic(auto, using(crate::proofs::OnWiring::on_each, crate::proofs::NarrowBoard::exchanged_laws))]
#[unsafe(no_mangle)]
pub extern "C" fn vcube_board_exchanged(
    wiring: usize,
    n: usize,
    own: usize,
    line: &mut [u8],
    from: usize,
    packed: &[u8],
) -> u8
    ensures number { let len = length packed.now in
        result ≡ on_wiring wiring no_such_wiring
        (λ w. number_of_result (exchanged_check w n own line.old from len)) }
    ensures line_after { line.new
        ≡ on_wiring wiring line.old (λ w. exchanged_after w n own line.old from packed.now) }
{
    let Ok(wiring) = Wiring::try_from(wiring) else {
        return NO_SUCH_WIRING;
    };
    let from = Station(byte_of(from));
    number_of(calls::exchanged(wiring, n, Station(byte_of(own)), line, from, packed))
}

// Board, round closed: the round closes in the board's line.
#[tactic(auto, using(crate::proofs::OnWiring::on_each, crate::proofs::NarrowBoard::line_narrow, crate::proofs::NarrowBoard::closed_narrow))]
#[unsafe(no_mangle)]
pub extern "C" fn vcube_board_round_closed(
    wiring: usize,
    n: usize,
    own: usize,
    line: &mut [u8],
) -> u8
    ensures number { result
        ≡ on_wiring wiring no_such_wiring (λ w. number_of_result (line_check w n own line.old)) }
    ensures line_after { line.new ≡ on_wiring wiring line.old (λ w. closed_after w n own line.old) }
{
    let Ok(wiring) = Wiring::try_from(wiring) else {
        return NO_SUCH_WIRING;
    };
    number_of(calls::round_closed(wiring, n, Station(byte_of(own)), line))
}

// A turn's answer: its number; the number of its outcome into outcome, 0 where it is refused.
#[tactic(auto, using(crate::proofs::NarrowBoard::outcome_laws))]
fn answer_turn(answer: Result<Outcome, Refusal>, outcome: &mut usize) -> u8
    ensures number { result ≡ number_of_result answer }
    ensures outcome_after { outcome.new
        ≡ result_unwrap_or (result_map_both (λ o. outcome_byte o) (λ r. r) answer) 0 }
{
    let (number, of_turn) = parts(answer, Outcome::PassFinished);
    *outcome = usize::from(of_turn.outcome_byte());
    number
}
