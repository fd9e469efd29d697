ghost use Rattle.stones.specs.Examples.{Examples};
ghost use Rattle.stones.specs.Piles.{alike, rules_of_play, sets_of_piles, taken};
ghost use Rattle.stones.specs.Laws.{game_laws, set_laws};

use crate::pile::{MOST_STONES, Pile, PileSet};
use search::{Child, Game, ROW};

// The game: the sides in turn take one stone or two, and the counting side scores what it takes.
pub enum Stones {}

impl Game for Stones {
    type Position = Pile;

    type Set = PileSet;

    type Move = u8;

    type Probe = PileSet;

    ghost rules = { rules_of_play };

    ghost sets = { sets_of_piles };

    ghost moved = { λ p. taken };

    ghost probed = { alike };

    ghost lawful = { record { game = game_laws; sets = set_laws } };

    fn counting(p: &Pile) -> bool {
        p.counting
    }

    fn moves(p: &Pile) -> u8 {
        p.stones.min(2)
    }

    fn after(p: &Pile, m: u8) -> Option<Child<Pile, u8>> {
        if m >= Self::moves(p) {
            return None;
        }
        Some(Child {
            position: Pile {
                stones: p.stones - (m + 1),
                counting: !p.counting,
                red: p.red,
            },
            gain: if p.counting { m + 1 } else { 0 },
            played: m + 1,
        })
    }

    fn score(p: &Pile) -> u8 {
        0
    }

    fn top(p: &Pile) -> u8 {
        p.stones
    }

    fn height(p: &Pile) -> u8 {
        p.stones
    }

    fn row(p: &Pile) -> [u64; ROW] {
        [p.stones as u64, p.counting as u64, p.red as u64, 0, 0]
    }

    fn position(row: &[u64; ROW]) -> Pile {
        Pile {
            stones: row[0].min(MOST_STONES) as u8,
            counting: row[1] == 1,
            red: row[2] == 1,
        }
    }

    fn probe(p: &Pile) -> PileSet {
        PileSet {
            stones: p.stones,
            counting: p.counting,
        }
    }

    fn belongs(s: &PileSet, v: &PileSet) -> bool {
        s == v
    }

    fn broad(p: &Pile) -> PileSet {
        Self::probe(p)
    }

    fn pull(p: &Pile, m: &u8, t: &PileSet) -> PileSet {
        Self::probe(p)
    }

    fn narrow(p: &Pile, s: &PileSet, t: &PileSet) -> PileSet {
        Self::probe(p)
    }

    fn weight(s: &PileSet) -> u8 {
        s.stones.min(MOST_STONES as u8)
    }
}

// What the definitions come to on small piles.
pub fn examples_right()
    ensures { Examples }
{}
