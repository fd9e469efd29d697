// The row of pins of a board.
ghost use Rattle.std.specs.Prelude.{◌≡◌, ◌<◌, ◌≤◌, [], ◌∷◌, ◌++◌, ◌↔◌, length, IsTrue, MatchOption};
ghost use Rattle.kayles.specs.Limits.{most_pins};
ghost use Rattle.kayles.specs.Rows.{Stands, row, upright};

use crate::board::{Board, MOST_PINS, Pin};

impl Board {
    // The board of no pins.
    pub fn empty() -> Board
        ensures { row result ≡ [] }
    {
        Board {
            count: 0,
            standing: 0,
        }
    }

    // The board with one pin more on its right, unless it has the most already.
    pub fn with(self, pin: Pin) -> Option<Board>
        ensures { MatchOption result (length (row self) ≡ most_pins)
            (λ b. (length (row self) < most_pins) × (row b ≡ row self ++ pin ∷ [])) }
    {
        if self.count >= MOST_PINS {
            return None;
        }
        Some(Board {
            count: self.count + 1,
            standing: self.standing | (pin as u32) << self.count,
        })
    }

    // How many pins there are, standing or down.
    pub fn len(self) -> u8
        ensures value { result ≡ length (row self) }
        ensures bound { result ≤ most_pins }
    {
        self.count
    }

    // How many pins stand.
    pub fn standing(self) -> u8
        ensures { result ≡ upright (row self) }
    {
        self.standing.count_ones() as u8
    }

    // Whether there is a pin of that number, counted from 1, and it stands.
    pub fn stands(self, pin: u8) -> bool
        ensures { IsTrue result ↔ Stands (row self) pin }
    {
        if pin == 0 || pin > self.count {
            return false;
        }
        (self.standing >> (pin - 1)) & 1 == 1
    }
}
