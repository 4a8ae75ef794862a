// A plant whose dead boards are known to all, as the arguments name it.
ghost use Rattle.std.specs.Prelude.{◌≡◌, ◌≤◌, ◌==◌, map, take, count_by, replicate, option_map, IfSome};
ghost use Rattle.std.specs.Result.{result_map_both};
ghost use Rattle.station.specs.Tests.{unsuspected};
ghost use Rattle.slots.specs.Slots.{most_tests};
ghost use Rattle.latency.specs.Turns.{most_until_known};

use crate::call::WrongCall;
use input::reading;
use latency::turns;
use station::due;
use table::{Station, sizes};

// The size, and the row of each live board: 1 at each dead one.
#[derive(Clone, Copy)]
pub struct Plant {
    pub size: u8,
    pub row: [u8; 64],
    ghost in_range: { size ≤ 64 },
}

impl Plant {
    ghost use Rattle.input.specs.Input.{station_of};
    ghost use Rattle.sheet.specs.Named.{plant_size, row_with, plant_of};

    // The plant that words name: its size, and each of its dead boards.
    pub fn read(size: &[u8], boards: &[&str]) -> Result<Plant, WrongCall>
        ensures { let words = map (λ w. w.now) boards.now in
            result_map_both (λ p. (p.size, p.row)) (λ e. e) result ≡ plant_of (plant_size size.now) words }
    {
        let Some(mut plant) = Plant::of_size(size) else {
            return Err(WrongCall::NotASize);
        };
        let mut argument: usize = 2;
        for board in boards {
            if let Err(wrong) = plant.name_dead(argument, board.as_bytes()) {
                return Err(wrong);
            }
            argument += 1;
        }
        if plant.live_boards() < 2 {
            return Err(WrongCall::TooFewLive);
        }
        Ok(plant)
    }

    // A plant of the size that a word says, with nobody dead.
    #[tactic(auto, using(table::proofs::SizeLaws::size_top))]
    fn of_size(word: &[u8]) -> Option<Plant>
        ensures size { option_map (λ p. p.size) result ≡ plant_size word.now }
        ensures nobody_dead { IfSome result (λ p. p.row ≡ replicate 64 0) }
    {
        let size = reading::read_size(word)?;
        if !sizes::is_size(size) {
            return None;
        }
        Some(Plant {
            size: size as u8,
            row: [0; 64],
        })
    }

    // Reads an argument, which names a board that no argument named before.
    fn name_dead(&mut self, argument: usize, word: &[u8]) -> Result<(), WrongCall>
        ensures row { let named = station_of word.now in
            result_map_both (λ _. self.new.row) (λ e. e) result ≡ row_with self.old.size argument self.old.row named }
        ensures size_unchanged { self.new.size ≡ self.old.size }
    {
        let last = self.size.saturating_sub(1);
        let Some(board) = reading::read_station(word) else {
            return Err(WrongCall::NotABoard { argument, last });
        };
        if self.size as usize <= board {
            return Err(WrongCall::NotABoard { argument, last });
        }
        if self.row[board] != 0 {
            return Err(WrongCall::NamedAgain { argument });
        }
        self.row[board] = 1;
        Ok(())
    }

    // How many boards are live.
    pub fn live_boards(&self) -> usize
        ensures { result ≡ count_by (λ dead. dead == 0) (take self.now.size self.now.row) }
    {
        self.row().iter().filter(|dead| **dead == 0).count()
    }

    // Its row, without what stands behind the last board.
    pub fn row(&self) -> &[u8]
        ensures { result.now ≡ take self.now.size self.now.row }
    {
        &self.row[..self.size as usize]
    }

    // The most tests of board i with one more dead.
    pub fn most_tests(&self, i: Station) -> u8
        ensures { result ≡ most_tests self.now.size (take self.now.size self.now.row) i.0 }
    {
        let mut row = self.row;
        slots::most_tests(self.size, &mut row[..self.size as usize], i)
    }

    // After how many grants at most one more dead board is known everywhere.
    pub fn most_until_known(&self) -> u32
        ensures { result ≡ most_until_known self.now.size (take self.now.size self.now.row) }
    {
        let mut row = self.row;
        turns::most_until_known(self.size, &mut row[..self.size as usize])
    }

    // Whether board x is there and not dead.
    pub fn is_live(&self, x: Station) -> bool
        ensures { result ≡ unsuspected (take self.now.size self.now.row) x.0 }
    {
        due::is_unsuspected(self.row(), x)
    }
}
