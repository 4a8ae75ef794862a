// A board and its own line: n + 6 bytes, lent to each call.
ghost use Rattle.std.specs.Prelude.{◌≡◌, ◌<◌, length, None, Some, option_map, slice_index};
ghost use Rattle.table.specs.Fresh.{fresh_byte};
ghost use Rattle.lists.specs.Search.{list_of};
ghost use Rattle.table.specs.Line.{row_of};
ghost use Rattle.table.specs.Table.{stride, tests_column};
ghost use Rattle.station.specs.Outcome.{tested_byte, outcome_byte};
ghost use Rattle.board.specs.Board.{next_of, next_station, tested, pass_finished, counted, left_told, joined, suspecting, alone, after_alone};
ghost use Rattle.board.specs.Board.{outcome_of, after_outcome, tested_at, turn_of, outcome, round_closed};
ghost use Rattle.board.specs.Calls.{row_in};
ghost use Rattle.board.specs.Packed.{heard};

use crate::packed::Heard;
use station::outcome::Outcome;
use station::rows;
use station::wired::Wired;
use table::status::Status;
use table::{Distance, Station, cells, fresh};

// The places of the bytes of a line.
pub(crate) const STATUS: usize = cells::STATUS as usize;

pub(crate) const NEXT: usize = cells::NEXT as usize;

pub(crate) const FINISHED: usize = cells::FINISHED as usize;

pub(crate) const TESTS: usize = cells::TESTS as usize;

pub(crate) const TOLD_BY: usize = cells::TOLD_BY as usize;

pub(crate) const ROUNDS_AGO: usize = cells::ROUNDS_AGO as usize;

pub(crate) const HEAD: usize = cells::HEAD as usize;

// A board's place in its plant: the wiring and the size of the plant, and the board's own number.
#[derive(Clone, Copy)]
pub(crate) struct Board {
    pub(crate) wired: Wired,
    pub(crate) own: Station,
    ghost below: { own.0 < wired.n },
}

impl Board {
    // How many bytes its line has.
    pub(crate) fn line_length(self) -> usize
        ensures { result ≡ stride self.wired.n }
    {
        HEAD + self.wired.n as usize
    }

    // The row of its line.
    #[tactic(auto, unfolding(table::specs::Line::row_of))]
    pub(crate) fn row(self, line: &[u8]) -> &[u8]
        requires { length line.now ≡ stride self.wired.n }
        ensures row_of_line { result.now ≡ row_of self.wired.n line.now }
        ensures row_length { length result.now ≡ self.wired.n }
    {
        let end = self.line_length();
        &line[HEAD..end]
    }

    // Fills the line: live, next distance 1, byte 4 255, all else 0.
    pub(crate) fn write_fresh(self, line: &mut [u8])
        requires { length line.old ≡ stride self.wired.n }
        ensures { line.new ≡ list_of (fresh_byte self.wired.n) (stride self.wired.n) }
    {
        fresh::write_line(self.wired.n, line);
    }

    // The distance of the next test; the end distance where there is none.
    #[tactic(auto, unfolding(crate::specs::Board::next_of))]
    fn next_test(self, line: &[u8]) -> Distance
        requires { length line.now ≡ stride self.wired.n }
        ensures { result.0 ≡ next_of self.wired.wiring self.wired.n self.own.0 line.now }
    {
        self.wired
            .next_due(self.row(line), self.own, Distance(line[NEXT]))
    }

    // Whom the board tests next; nobody where its pass is at its end.
    #[tactic(auto, unfolding(crate::specs::Board::tests, crate::specs::Board::next_station))]
    pub(crate) fn next(self, line: &[u8]) -> Option<Station>
        requires { length line.now ≡ stride self.wired.n }
        ensures { option_map (λ x. x.0) result
            ≡ next_station self.wired.wiring self.wired.n self.own.0 line.now }
    {
        let m = self.next_test(line);
        if self.wired.end <= m.0 {
            return None;
        }
        Some(self.wired.station_at(self.own, m))
    }

    // The board's turn where the board that it tests replies in time, with its packed row.
    #[tactic(auto, using(table::proofs::SizeLaws::size_top, table::proofs::WiringLaws::end_top), unfolding(crate::specs::Board::turn_of, crate::specs::Board::outcome, crate::specs::Board::tested, crate::specs::Board::tests, crate::specs::Board::tested_at))]
    pub(crate) fn replied(self, line: &mut [u8], packed: &[u8]) -> Outcome
        requires fits { length line.old ≡ stride self.wired.n }
        requires tests_fit { slice_index line.old tests_column < 255 }
        ensures outcome_number { let reply = row_in self.wired.wiring self.wired.n self.own.0 line.old packed.now in
            outcome_byte result ≡ outcome self.wired.wiring self.wired.n self.own.0 line.old reply }
        ensures turn_made { let reply = row_in self.wired.wiring self.wired.n self.own.0 line.old packed.now in
            line.new ≡ turn_of self.wired.wiring self.wired.n self.own.0 line.old reply }
    {
        let m = self.next_test(line);
        if self.wired.end <= m.0 {
            self.finish_pass(line);
            return Outcome::PassFinished;
        }
        let reply = Heard {
            from: self.wired.station_at(self.own, m),
            packed,
        };
        let outcome = self.outcome_of(line, &reply);
        self.count(line, m, outcome);
        self.apply_outcome(line, &reply, outcome);
        self.leave_if_alone(line);
        outcome
    }

    // The board's turn where no reply comes in time.
    #[tactic(auto, using(table::proofs::SizeLaws::size_top, table::proofs::WiringLaws::end_top), unfolding(crate::specs::Board::turn_of, crate::specs::Board::outcome, crate::specs::Board::outcome_of, crate::specs::Board::tests, crate::specs::Board::tested_at, crate::specs::Board::after_outcome))]
    pub(crate) fn not_replied(self, line: &mut [u8]) -> Outcome
        requires fits { length line.old ≡ stride self.wired.n }
        requires tests_fit { slice_index line.old tests_column < 255 }
        ensures outcome_number { outcome_byte result
            ≡ outcome self.wired.wiring self.wired.n self.own.0 line.old None }
        ensures turn_made { line.new
            ≡ turn_of self.wired.wiring self.wired.n self.own.0 line.old None }
    {
        let m = self.next_test(line);
        if self.wired.end <= m.0 {
            self.finish_pass(line);
            return Outcome::PassFinished;
        }
        let j = self.wired.station_at(self.own, m);
        let outcome = Outcome::NoReply(j);
        self.count(line, m, outcome);
        self.suspect(line, j);
        self.leave_if_alone(line);
        outcome
    }

    // The end of the board's pass.
    #[tactic(auto, unfolding(crate::specs::Board::pass_finished))]
    fn finish_pass(self, line: &mut [u8])
        requires { length line.old ≡ stride self.wired.n }
        ensures { line.new
            ≡ pass_finished self.wired.wiring self.wired.n line.old }
    {
        line[NEXT] = self.wired.end;
        line[FINISHED] = 1;
    }

    // The outcome of the test of a board that replied with its row. That row is asked first: whoever is suspected in it is told.
    #[tactic(auto, using(crate::proofs::PackedLaws::heard_at), unfolding(crate::specs::Board::outcome_of))]
    fn outcome_of(self, line: &[u8], reply: &Heard) -> Outcome
        requires fits { length line.now ≡ stride self.wired.n }
        requires other { reply.now.from.0 < self.wired.n }
        ensures tested_station { tested_byte result ≡ reply.now.from.0 }
        ensures outcome_number { let row = heard self.wired.n reply.now.from.0 reply.now.packed.now in
            outcome_byte result ≡ outcome_of self.own.0 reply.now.from.0 line.now (Some row) }
    {
        let j = reply.from;
        if reply.suspects(self.own) {
            return Outcome::Told(j);
        }
        let at = HEAD + j.0 as usize;
        if line[at] == 1 {
            return Outcome::TestedTold(j);
        }
        Outcome::Exchanged(j)
    }

    // Counts the test by its outcome: next distance and tests made.
    #[tactic(auto, unfolding(crate::specs::Board::counted))]
    fn count(self, line: &mut [u8], m: Distance, outcome: Outcome)
        requires fits { length line.old ≡ stride self.wired.n }
        requires tests_fit { slice_index line.old tests_column < 255 }
        requires distance_fits { m.0 < 255 }
        ensures { line.new
            ≡ counted self.wired.wiring self.wired.n line.old m.0 (outcome_byte outcome) }
    {
        let tests = line[TESTS];
        line[NEXT] = self.wired.next_after(m, outcome);
        line[TESTS] = tests + 1;
    }

    // What the outcome of a test does to the tester's line; `reply` is what came.
    #[tactic(auto, using(table::proofs::SizeLaws::size_top), unfolding(crate::specs::Board::after_outcome))]
    fn apply_outcome(self, line: &mut [u8], reply: &Heard, outcome: Outcome)
        requires fits { length line.old ≡ stride self.wired.n }
        requires other { tested_byte outcome < self.wired.n }
        ensures { let n = self.wired.n in
            let row = heard n reply.now.from.0 reply.now.packed.now in
            let j = tested_byte outcome in
            line.new ≡ after_outcome n self.own.0 j line.old row (outcome_byte outcome) }
    {
        match outcome {
            Outcome::Told(j) => self.leave_told(line, j),
            Outcome::Exchanged(_) => self.join(line, reply),
            Outcome::NoReply(j) => self.suspect(line, j),
            // The tester's line stays; the others are no outcome of a test.
            Outcome::TestedTold(_) | Outcome::PassFinished | Outcome::Crashed => {}
        }
    }

    // The board leaves because told by another, which byte 4 names.
    #[tactic(auto, unfolding(crate::specs::Board::left_told))]
    pub(crate) fn leave_told(self, line: &mut [u8], by: Station)
        requires { length line.old ≡ stride self.wired.n }
        ensures { line.new ≡ left_told line.old by.0 }
    {
        line[STATUS] = u8::from(Status::LeftTold);
        line[TOLD_BY] = by.0;
    }

    // Joins the row of another board into its own.
    #[tactic(auto, using(table::proofs::SizeLaws::size_top), unfolding(crate::specs::Board::joined, table::specs::Line::row_of, table::specs::Line::with_row))]
    pub(crate) fn join(self, line: &mut [u8], row: &Heard)
        requires { length line.old ≡ stride self.wired.n }
        ensures { let n = self.wired.n in
            line.new ≡ joined n self.own.0 line.old (heard n row.now.from.0 row.now.packed.now) }
    {
        let end = self.line_length();
        row.join_into(&mut line[HEAD..end], self.own);
    }

    // The board suspects j, which did not reply.
    #[tactic(auto, unfolding(crate::specs::Board::suspecting, table::specs::Line::row_of, table::specs::Line::with_row))]
    fn suspect(self, line: &mut [u8], j: Station)
        requires { length line.old ≡ stride self.wired.n }
        ensures { line.new ≡ suspecting self.wired.n line.old j.0 }
    {
        let end = self.line_length();
        rows::mark_row(&mut line[HEAD..end], j);
    }

    // The board leaves if it is live and suspects all others.
    #[tactic(auto, unfolding(crate::specs::Board::after_alone))]
    fn leave_if_alone(self, line: &mut [u8])
        requires { length line.old ≡ stride self.wired.n }
        ensures { line.new ≡ after_alone self.wired.n self.own.0 line.old }
    {
        if self.is_alone(line) {
            line[STATUS] = u8::from(Status::LeftAlone);
        }
    }

    // Whether the board is live and suspects all others.
    #[tactic(auto, using(crate::proofs::RowLaws::alone_by_row), unfolding(crate::specs::Board::alone))]
    fn is_alone(self, line: &[u8]) -> bool
        requires { length line.now ≡ stride self.wired.n }
        ensures { result ≡ alone self.wired.n self.own.0 line.now }
    {
        if line[STATUS] != 0 {
            return false;
        }
        rows::suspects_all(self.row(line), self.own)
    }

    // The closing of a round. Byte 5 counts on, up to 255, where the board is not live.
    #[tactic(auto, unfolding(crate::specs::Board::round_closed))]
    pub(crate) fn close_round(self, line: &mut [u8])
        requires { length line.old ≡ stride self.wired.n }
        ensures { line.new ≡ round_closed line.old }
    {
        line[NEXT] = 1;
        line[FINISHED] = 0;
        line[TESTS] = 0;
        if line[STATUS] != 0 {
            line[ROUNDS_AGO] = line[ROUNDS_AGO].saturating_add(1);
        }
    }
}
