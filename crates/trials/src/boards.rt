// Kayles through the game's interface, beside a minimax that shares nothing with it.
use kayles::{Board, Kayles, Knock, Pin, Position, RunSet};
use search::Game;
use std::alloc::{AllocError, Global};
use std::test::Fail;

// The most pins of the boards that are tried.
const PINS: u8 = 8;

// The board of so many pins, of which those stand whose bit is 1.
fn board(pins: u8, standing: u32) -> Option<Board> {
    (0..pins).try_fold(Board::empty(), |board, i| {
        board.with(if standing.checked_shr(u32::from(i))? & 1 == 1 {
            Pin::Standing
        } else {
            Pin::Down
        })
    })
}

// The separate minimax: the first move that leaves the other player without a win, if there is one, as its lowest pin and
// how many. `wins` says of each row with fewer standing pins whether its mover wins.
fn winning_move(standing: u32, wins: &[bool]) -> Option<(u8, u8)> {
    for at in 0..PINS {
        for (pins, mask) in [(1, 1u32), (2, 3u32)] {
            let taken = mask << at;
            if standing & taken == taken && wins.get((standing ^ taken) as usize) == Some(&false) {
                return Some((at + 1, pins));
            }
        }
    }
    None
}

// Whether the mover wins, for each row of `PINS` pins.
fn all_wins(heap: Global) -> Result<Vec<bool>, AllocError> {
    let mut wins = Vec::new(heap);
    for standing in 0..256 {
        let won = winning_move(standing, wins.as_slice()).is_some();
        wins.push(won)?;
    }
    Ok(wins)
}

// What a row is worth, by the side to move.
#[derive(Clone, Copy)]
struct Worths {
    counting: u8,
    other: u8,
}

impl Worths {
    fn of(self, p: &Position) -> u8 {
        if Kayles::counting(p) {
            self.counting
        } else {
            self.other
        }
    }
}

// What a position is worth by plain minimax over the game's interface, and its first move to reach that. `known` says what
// the rows with fewer standing pins are worth.
fn solved(p: &Position, known: &[Worths]) -> Option<(u8, Option<Knock>)> {
    let mut best = None;
    for m in 0..Kayles::moves(p) {
        let child = Kayles::after(p, m)?;
        let at = Kayles::row(&child.position)[1];
        let after = known.get(at as usize)?.of(&child.position);
        let worth = after.checked_add(child.gain)?;
        let better = best.is_none_or(|(most, _)| if Kayles::counting(p) {
            worth > most
        } else {
            worth < most
        });
        if better {
            best = Some((worth, Some(child.played)));
        }
    }
    best.or(Some((Kayles::score(p), None)))
}

// The two agree on a position: who wins, and by which move first.
fn agree(p: &Position, found: (u8, Option<Knock>), wins: &[bool]) -> bool {
    let (worth, played) = found;
    let standing = Kayles::row(p)[1];
    let winning = winning_move((standing % 256) as u32, wins);
    let won = winning.is_some();
    worth <= Kayles::top(p)
        && won == (Kayles::counting(p) == (worth == 1))
        && (!won || winning == played.map(|knock| (knock.pin, knock.pins)))
}

// What a board is worth with the one side to move or the other, if the two agree on it.
fn agreed(board: Board, counting: bool, known: &[Worths], wins: &[bool]) -> Result<u8, Fail> {
    let p = Position { board, counting };
    let found = solved(&p, known).ok_or("no answer")?;
    if !agree(&p, found, wins) {
        return Err(Fail::new("another answer"));
    }
    Ok(found.0)
}

// Every board of up to 8 pins, with either side to move.
#[test]
fn boards_beside_another_minimax(rt: HostRuntime) -> Result<(), Fail> {
    let heap = rt.alloc();
    let wins = all_wins(heap)?;
    for pins in 0..PINS + 1 {
        let mut known = Vec::new(heap);
        for standing in 0..1u32 << pins {
            let board = board(pins, standing).ok_or("no board")?;
            let counting = agreed(board, true, known.as_slice(), wins.as_slice())?;
            let other = agreed(board, false, known.as_slice(), wins.as_slice())?;
            known.push(Worths { counting, other })?;
        }
    }
    Ok(())
}

// The position of so many pins, of which those stand whose bit is 1, where the counting side is to move or not.
fn position(pins: u64, standing: u64, counting: bool) -> Position {
    Kayles::position(&[pins, standing, counting as u64, 0, 0])
}

// Whether q belongs to the set of p.
fn belongs(p: &Position, q: &Position) -> bool {
    Kayles::belongs(&Kayles::broad(p), &Kayles::probe(q))
}

#[test]
fn sets_of_boards(rt: HostRuntime) {
    // X.XX and .XX...X, and that with the other side to move
    let p = position(4, 0b1101, true);
    let q = position(7, 0b100_0110, true);
    let other = position(7, 0b100_0110, false);
    assert!(rt; belongs(&p, &q) && !belongs(&p, &other));
    let set = RunSet::of(p);
    assert_eq!(rt; (set.runs(1), set.runs(2), set.runs(3)), (1, 1, 0));
    assert_eq!(rt;
        (set.runs(0), set.runs(33), Kayles::weight(&set)),
        (0, 0, 3)
    );
    // XX and XX.X.X: two equal runs more are another set
    let p = position(2, 0b11, true);
    let q = position(6, 0b10_1011, true);
    assert!(rt; !belongs(&p, &q));
    let set = RunSet::of(q);
    assert_eq!(rt; (set.runs(1), set.runs(2), Kayles::weight(&set)), (2, 1, 4));
}

// 32 pins: every other one standing, and all of them.
#[test]
fn sets_of_long_boards(rt: HostRuntime) {
    let apart = RunSet::of(position(32, 0x5555_5555, true));
    assert_eq!(rt;
        (apart.runs(1), apart.runs(2), Kayles::weight(&apart)),
        (16, 0, 16)
    );
    let all = RunSet::of(position(32, 0xffff_ffff, false));
    assert_eq!(rt;
        (all.runs(32), all.runs(31), Kayles::weight(&all)),
        (1, 0, 32)
    );
}

#[test]
fn moves_of_a_board(rt: HostRuntime) -> Result<(), Fail> {
    // X.XX: pin 1, pin 3, pins 3 and 4, pin 4
    let board = board(4, 0b1101).ok_or("no board")?;
    for (number, pin, pins) in [(0, 1, 1), (1, 3, 1), (2, 3, 2), (3, 4, 1)] {
        assert_eq!(rt; board.knock(number), Some(Knock { pin, pins }));
    }
    assert!(rt; board.knock(4).is_none() && board.knock(255).is_none());
    Ok(())
}

// A position goes into plain words and comes back; words that are no position's give one all the same.
#[test]
fn words_of_a_position(rt: HostRuntime) {
    let p = Kayles::position(&[4, 0b1101, 1, 0, 0]);
    assert!(rt; Kayles::row(&p) == [4, 0b1101, 1, 0, 0]);
    assert_eq!(rt;
        (Kayles::height(&p), Kayles::moves(&p), Kayles::score(&p)),
        (3, 4, 0)
    );
    let odd = Kayles::position(&[90, u64::MAX, 7, 7, 7]);
    assert!(rt; Kayles::row(&odd) == [32, 4294967295, 0, 0, 0]);
}
