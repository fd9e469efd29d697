// The moves on a board.
ghost use Rattle.std.specs.Prelude.{◌≡◌, ◌-◌, ◌^◌, ◌≤◌, ◌↔◌, length, IsTrue, MatchOption};
ghost use Rattle.std.specs.List.{slice_get};
ghost use Rattle.kayles.specs.Play.{IsKnock, Numbered, Unnumbered, knocks, left_by};
ghost use Rattle.kayles.specs.Rows.{row};

use crate::board::Board;
use crate::position::Knock;

// One pin or two, as a mask at the low end: at its place, the mask of two pins at pin 32 would lose a bit.
fn mask_of(pins: u8) -> u32
    requires { pins ≤ 2 }
    ensures { result ≡ 2 ^ pins - 1 }
{
    (1 << pins) - 1
}

impl Board {
    // Whether the one or two pins of a knock that begins on the board stand.
    fn can_take(self, k: Knock) -> bool
        requires first { 1 ≤ k.pin }
        requires on_board { k.pin ≤ self.count }
        requires some { 1 ≤ k.pins }
        requires few { k.pins ≤ 2 }
        ensures { IsTrue result ↔ IsKnock (row self) k }
    {
        let wanted = mask_of(k.pins);
        (self.standing >> (k.pin - 1)) & wanted == wanted
    }

    // How many moves there are: each standing pin, and each two that stand side by side.
    pub(crate) fn moves(self) -> u8
        ensures { result ≡ length (knocks (row self)) }
    {
        let pairs = self.standing & (self.standing >> 1);
        (self.standing.count_ones() + pairs.count_ones()) as u8
    }

    // The move of a number, counted from 0: by the lowest pin, one before two.
    pub fn knock(self, number: u8) -> Option<Knock>
        ensures listed { result ≡ slice_get (knocks (row self)) number }
        ensures numbered { MatchOption result (Unnumbered (row self) number) (Numbered (row self) number) }
    {
        let mut left = number;
        let mut hit = None;
        // Left at the wanted move: no list of the moves is made.
        'search: for pin in 1..self.count + 1 {
            for pins in 1..3 {
                let knock = Knock { pin, pins };
                if self.can_take(knock) {
                    if left == 0 {
                        hit = Some(knock);
                        break 'search;
                    }
                    left -= 1;
                }
            }
        }
        hit
    }

    // The board after a move.
    pub(crate) fn without(self, k: Knock) -> Board
        requires { IsKnock (row self) k }
        ensures { row result ≡ left_by k (row self) }
    {
        Board {
            count: self.count,
            standing: self.standing & !(mask_of(k.pins) << (k.pin - 1)),
        }
    }
}
