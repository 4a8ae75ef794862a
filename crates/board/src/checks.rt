// What each call of a board asks of its inputs, in the order of the refusals.
ghost use Rattle.std.specs.Prelude.{◌≡◌, ◌<◌, length, IfOk, slice_index};
ghost use Rattle.std.specs.Result.{result_map_both};
ghost use Rattle.table.specs.Rules.{length_check};
ghost use Rattle.table.specs.Table.{stride, tests_column};
ghost use Rattle.board.specs.Packed.{packed_length};
ghost use Rattle.board.specs.Calls.{line_rules, place_check, line_check, live_check, turn_check, sent_check};

use crate::board::{self, Board};
use lists::refusal::Refusal;
use station::wired::Wired;
use table::status::Status;
use table::wiring::Wiring;
use table::{Station, rules, sizes};

impl Board {
    // A board whose line has this length: refusals 1, 9 and 25.
    #[tactic(auto, using(table::proofs::SizeLaws::size_top), unfolding(crate::specs::Calls::place_check))]
    pub(crate) fn checked(
        wiring: Wiring,
        n: usize,
        own: Station,
        len: usize,
    ) -> Result<Board, Refusal>
        ensures check { result_map_both (λ b. tt) (λ r. r) result
            ≡ place_check n own.0 len }
        ensures same_wiring { IfOk result (λ b. b.wired.wiring ≡ wiring) }
        ensures same_size { IfOk result (λ b. b.wired.n ≡ n) }
        ensures same_number { IfOk result (λ b. b.own ≡ own) }
        ensures line_fits { IfOk result (λ b. len ≡ stride b.wired.n) }
    {
        if !sizes::is_size(n) {
            return Err(Refusal::SizeOutOfRange);
        }
        let wired = Wired::new(wiring, n as u8);
        if wired.n <= own.0 {
            return Err(Refusal::NoSuchStation);
        }
        let board = Board { wired, own };
        if len != board.line_length() {
            return Err(Refusal::LineLength);
        }
        Ok(board)
    }

    // Refusal 3.
    #[tactic(auto, using(crate::proofs::CallLaws::place_ok, crate::proofs::CallLaws::rules_tests), unfolding(crate::specs::Calls::line_check))]
    pub(crate) fn check_line(self, line: &[u8]) -> Result<(), Refusal>
        requires { length line.now ≡ stride self.wired.n }
        ensures check { result ≡ line_check self.wired.wiring self.wired.n self.own.0 line.now }
        ensures tests_fit { IfOk result (λ u. slice_index line.now tests_column < 255) }
    {
        if !self.keeps_line_rules(line) {
            return Err(Refusal::LineRule);
        }
        Ok(())
    }

    // Refusals 3 and 10.
    #[tactic(auto, unfolding(crate::specs::Calls::live_check))]
    pub(crate) fn check_live(self, line: &[u8]) -> Result<(), Refusal>
        requires { length line.now ≡ stride self.wired.n }
        ensures check { result ≡ live_check self.wired.wiring self.wired.n self.own.0 line.now }
        ensures tests_fit { IfOk result (λ u. slice_index line.now tests_column < 255) }
    {
        self.check_line(line)?;
        if line[board::STATUS] != 0 {
            return Err(Refusal::NotLive);
        }
        Ok(())
    }

    // Refusals 3, 10 and 11.
    #[tactic(auto, unfolding(crate::specs::Calls::turn_check))]
    pub(crate) fn check_turn(self, line: &[u8]) -> Result<(), Refusal>
        requires { length line.now ≡ stride self.wired.n }
        ensures check { result ≡ turn_check self.wired.wiring self.wired.n self.own.0 line.now }
        ensures tests_fit { IfOk result (λ u. slice_index line.now tests_column < 255) }
    {
        self.check_live(line)?;
        if line[board::FINISHED] == 1 {
            return Err(Refusal::PassFinished);
        }
        Ok(())
    }

    // Refusals 3, 10 and 9, of what another board sends.
    #[tactic(auto, unfolding(crate::specs::Calls::sent_check))]
    pub(crate) fn check_sent(self, line: &[u8], from: Station) -> Result<(), Refusal>
        requires { length line.now ≡ stride self.wired.n }
        ensures { result ≡ sent_check self.wired.wiring self.wired.n self.own.0 line.now from.0 }
    {
        self.check_live(line)?;
        if self.wired.n <= from.0 {
            return Err(Refusal::NoSuchStation);
        }
        if from == self.own {
            return Err(Refusal::NoSuchStation);
        }
        Ok(())
    }

    // Refusal 13.
    pub(crate) fn check_packed(self, packed: &[u8]) -> Result<(), Refusal>
        ensures { result ≡ length_check (packed_length self.wired.n) (length packed.now) }
    {
        if packed.len() != (self.wired.n as usize + 7) / 8 {
            return Err(Refusal::ListLength);
        }
        Ok(())
    }

    // Whether the line keeps the line rules.
    #[tactic(auto, using(crate::proofs::RowLaws::line_asked), unfolding(crate::specs::Calls::line_rules))]
    fn keeps_line_rules(self, line: &[u8]) -> bool
        requires { length line.now ≡ stride self.wired.n }
        ensures { result ≡ line_rules self.wired.wiring self.wired.n self.own.0 line.now }
    {
        let Ok(status) = Status::try_from(line[board::STATUS]) else {
            return false;
        };
        let next = line[board::NEXT];
        let finished = line[board::FINISHED];
        let tests = line[board::TESTS];
        if !rules::pass_rule(self.wired.end, next, finished, tests) {
            return false;
        }
        let by = line[board::TOLD_BY];
        let ago = line[board::ROUNDS_AGO];
        if !rules::exit_rule(self.wired.n, self.own, status, by, ago) {
            return false;
        }
        rules::keeps_row_rule(self.row(line), self.own)
    }
}
