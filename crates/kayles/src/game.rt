// Kayles as a game for the search.
ghost use Rattle.std.specs.Prelude.{◌≡◌, ◌≤◌, MatchOption};
ghost use Rattle.kayles.specs.Kayles.{cut_to_fit, kayles_rules, kayles_sets, knock_of, pins_of, set_of};
ghost use Rattle.kayles.specs.Play.{Unnumbered};
ghost use Rattle.kayles.specs.Promises.{Plays, RulesRight, SetsRight};
ghost use Rattle.search.specs.Games.{IsChild};
ghost use Rattle.kayles.specs.Laws.{game_laws, set_laws};

use crate::board::{Board, MOST_PINS};
use crate::position::{Knock, Position};
use crate::tally::RunSet;
use search::{Child, Game, ROW};

// The game: the sides in turn knock down one standing pin or two standing neighbours, and who takes the last pin wins.
pub enum Kayles {}

// The board of a count and a mask, cut to what a board can be.
fn fitted(count: u64, mask: u64) -> Board
    ensures { result ≡ cut_to_fit count mask }
{
    let count = count.min(MOST_PINS as u64);
    Board {
        count: count as u8,
        standing: (mask & ((1 << count) - 1)) as u32,
    }
}

impl Game for Kayles {
    type Position = Position;

    type Set = RunSet;

    type Move = Knock;

    type Probe = RunSet;

    ghost rules = { kayles_rules };

    ghost sets = { kayles_sets };

    ghost moved = { knock_of };

    ghost probed = { set_of };

    ghost lawful = { record { game = game_laws; sets = set_laws } };

    fn counting(p: &Position) -> bool {
        p.counting
    }

    fn moves(p: &Position) -> u8 {
        p.board.moves()
    }

    fn after(p: &Position, m: u8) -> Option<Child<Position, Knock>>
        ensures child { MatchOption result (kayles_rules.moves p.now ≤ m) (IsChild kayles_rules knock_of p.now m) }
        ensures plays { MatchOption result (Unnumbered (pins_of p.now) m) (Plays p.now m) }
    {
        let played = p.board.knock(m)?;
        Some(Child {
            position: Position {
                board: p.board.without(played),
                counting: !p.counting,
            },
            gain: 0,
            played,
        })
    }

    fn score(p: &Position) -> u8 {
        u8::from(p.board.moves() == 0 && !p.counting)
    }

    fn top(p: &Position) -> u8 {
        1
    }

    fn height(p: &Position) -> u8 {
        p.board.standing()
    }

    fn row(p: &Position) -> [u64; ROW] {
        [
            p.board.count as u64,
            p.board.standing as u64,
            p.counting as u64,
            0,
            0,
        ]
    }

    fn position(row: &[u64; ROW]) -> Position {
        Position {
            board: fitted(row[0], row[1]),
            counting: row[2] == 1,
        }
    }

    fn probe(p: &Position) -> RunSet {
        RunSet::of(*p)
    }

    fn belongs(s: &RunSet, v: &RunSet) -> bool {
        s == v
    }

    // All three are the set of the position. A trait of games like that would be longer than these lines.

    fn broad(p: &Position) -> RunSet {
        Self::probe(p)
    }

    fn pull(p: &Position, m: &Knock, t: &RunSet) -> RunSet {
        Self::probe(p)
    }

    fn narrow(p: &Position, s: &RunSet, t: &RunSet) -> RunSet {
        Self::probe(p)
    }

    fn weight(s: &RunSet) -> u8 {
        s.pins()
    }
}

// The rules that the game is proved against are those of Kayles.
pub fn rules_right()
    ensures { RulesRight }
{}

// The sets that the game is proved against are those of its runs.
pub fn sets_right()
    ensures { SetsRight }
{}
