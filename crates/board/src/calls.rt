// The calls of a board, by numbers and bytes that come from outside. A refused call changes no byte.
ghost use Rattle.std.specs.Prelude.{◌≡◌, length, option_map};
ghost use Rattle.std.specs.Result.{result_map_both};
ghost use Rattle.station.specs.Outcome.{outcome_byte};
ghost use Rattle.board.specs.Calls.{place_check, line_check, row_check, sent_check, exchanged_check, fresh_after, next_answer, row_sent};
ghost use Rattle.board.specs.Calls.{replied_answer, replied_after, not_replied_answer, not_replied_after, told_after, exchanged_after};
ghost use Rattle.board.specs.Calls.{closed_after};

use crate::board::Board;
use crate::packed::{self, Heard};
use lists::refusal::Refusal;
use station::outcome::Outcome;
use table::Station;
use table::wiring::Wiring;

// The line becomes a line of a fresh table.
pub fn fresh(wiring: Wiring, n: usize, own: Station, line: &mut [u8]) -> Result<(), Refusal>
    ensures check { result ≡ place_check n own.0 (length line.old) }
    ensures line_after { line.new ≡ fresh_after n own.0 line.old }
{
    let board = Board::checked(wiring, n, own, line.len())?;
    board.write_fresh(line);
    Ok(())
}

// Whom the board tests next; nobody where its pass is at its end.
#[tactic(auto, unfolding(crate::specs::Calls::turn_check, crate::specs::Calls::live_check, crate::specs::Calls::line_check))]
pub fn next(wiring: Wiring, n: usize, own: Station, line: &[u8]) -> Result<Option<Station>, Refusal>
    ensures { result_map_both (λ o. option_map (λ x. x.0) o) (λ r. r) result
        ≡ next_answer wiring n own.0 line.now }
{
    let board = Board::checked(wiring, n, own, line.len())?;
    board.check_turn(line)?;
    Ok(board.next(line))
}

// The board's row, packed: what it answers to a test, and what it sends as an exchange after its own turn.
#[tactic(auto, using(table::proofs::SizeLaws::size_top), unfolding(crate::specs::Calls::row_check, crate::specs::Calls::live_check, crate::specs::Calls::line_check))]
pub fn row(
    wiring: Wiring,
    n: usize,
    own: Station,
    line: &[u8],
    packed: &mut [u8],
) -> Result<(), Refusal>
    ensures check { result ≡ row_check wiring n own.0 line.now (length packed.old) }
    ensures row_after { packed.new ≡ row_sent wiring n own.0 line.now packed.old }
{
    let board = Board::checked(wiring, n, own, line.len())?;
    board.check_live(line)?;
    board.check_packed(packed)?;
    packed::pack(board.row(line), packed);
    Ok(())
}

// The board's turn, with the reply of the board that it tests: that one's row, packed.
#[tactic(auto, unfolding(crate::specs::Calls::replied_check, crate::specs::Calls::turn_check, crate::specs::Calls::live_check, crate::specs::Calls::line_check))]
pub fn replied(
    wiring: Wiring,
    n: usize,
    own: Station,
    line: &mut [u8],
    packed: &[u8],
) -> Result<Outcome, Refusal>
    ensures outcome { result_map_both (λ o. outcome_byte o) (λ r. r) result
        ≡ replied_answer wiring n own.0 line.old packed.now }
    ensures line_after { line.new ≡ replied_after wiring n own.0 line.old packed.now }
{
    let board = Board::checked(wiring, n, own, line.len())?;
    board.check_turn(line)?;
    board.check_packed(packed)?;
    Ok(board.replied(line, packed))
}

// The board's turn where no reply comes in time.
#[tactic(auto, unfolding(crate::specs::Calls::turn_check, crate::specs::Calls::live_check, crate::specs::Calls::line_check))]
pub fn not_replied(
    wiring: Wiring,
    n: usize,
    own: Station,
    line: &mut [u8],
) -> Result<Outcome, Refusal>
    ensures outcome { result_map_both (λ o. outcome_byte o) (λ r. r) result
        ≡ not_replied_answer wiring n own.0 line.old }
    ensures line_after { line.new ≡ not_replied_after wiring n own.0 line.old }
{
    let board = Board::checked(wiring, n, own, line.len())?;
    board.check_turn(line)?;
    Ok(board.not_replied(line))
}

// Board `by`, which tested this one, tells it to leave.
#[tactic(auto, unfolding(crate::specs::Calls::sent_check, crate::specs::Calls::live_check, crate::specs::Calls::line_check))]
pub fn told(
    wiring: Wiring,
    n: usize,
    own: Station,
    line: &mut [u8],
    by: Station,
) -> Result<(), Refusal>
    ensures check { result ≡ sent_check wiring n own.0 line.old by.0 }
    ensures line_after { line.new ≡ told_after wiring n own.0 line.old by.0 }
{
    let board = Board::checked(wiring, n, own, line.len())?;
    board.check_sent(line, by)?;
    board.leave_told(line, by);
    Ok(())
}

// Board `from`, which tested this one, sends its row, packed.
#[tactic(auto, using(table::proofs::SizeLaws::size_top), unfolding(crate::specs::Calls::exchanged_check, crate::specs::Calls::sent_check, crate::specs::Calls::live_check, crate::specs::Calls::line_check))]
pub fn exchanged(
    wiring: Wiring,
    n: usize,
    own: Station,
    line: &mut [u8],
    from: Station,
    packed: &[u8],
) -> Result<(), Refusal>
    ensures check { result
        ≡ exchanged_check wiring n own.0 line.old from.0 (length packed.now) }
    ensures line_after { line.new ≡ exchanged_after wiring n own.0 line.old from.0 packed.now }
{
    let board = Board::checked(wiring, n, own, line.len())?;
    board.check_sent(line, from)?;
    board.check_packed(packed)?;
    board.join(line, &Heard { from, packed });
    Ok(())
}

// The round is closed.
#[tactic(auto, unfolding(crate::specs::Calls::line_check))]
pub fn round_closed(wiring: Wiring, n: usize, own: Station, line: &mut [u8]) -> Result<(), Refusal>
    ensures check { result ≡ line_check wiring n own.0 line.old }
    ensures line_after { line.new ≡ closed_after wiring n own.0 line.old }
{
    let board = Board::checked(wiring, n, own, line.len())?;
    board.check_line(line)?;
    board.close_round(line);
    Ok(())
}
