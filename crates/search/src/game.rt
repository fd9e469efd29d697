ghost use Rattle.std.specs.Prelude.{◌≡◌, ℕ, ◌<◌, ◌≤◌, MatchOption};
ghost use Rattle.search.specs.Games.{IsChild, Rules};
ghost use Rattle.search.specs.Sets.{Lawful, Sets};

// How many words a position's row has.
pub const ROW: usize = 5;

// The position after a move, what the move gains, and the move itself, found once for all that follows.
#[derive(Clone, Copy)]
pub struct Child<P, M> {
    pub position: P,
    pub gain: u8,
    pub played: M,
}

// A game with its sets. Every method is total and asks nothing of its caller.
pub trait Game {
    type Position: Copy;

    type Set: Copy;
    // A move, as `pull` wants it.
    type Move: Copy;
    // What a membership test wants of a position, so that a look computes it once and not once a cell.
    type Probe: Copy;

    ghost rules: { Rules Self.Position };

    ghost sets: { Sets Self.Position Self.Set };

    // The move of a number, and the probe of a position.
    ghost moved: { Self.Position → ℕ → Self.Move };

    ghost probed: { Self.Position → Self.Probe };

    // Whether the counting side is to move.
    fn counting(p: &Self::Position) -> bool
        ensures { result ≡ rules.counting p.now };

    // How many moves there are; none at the end.
    fn moves(p: &Self::Position) -> u8
        ensures { result ≡ rules.moves p.now };

    // What move m leads to; none at or past the number of moves.
    fn after(p: &Self::Position, m: u8) -> Option<Child<Self::Position, Self::Move>>
        ensures { MatchOption result (rules.moves p.now ≤ m) (IsChild rules moved p.now m) };

    // The end score.
    fn score(p: &Self::Position) -> u8
        ensures { result ≡ rules.score p.now };

    // The most that any play from here adds to the score.
    fn top(p: &Self::Position) -> u8
        ensures { result ≡ rules.top p.now };

    // The most moves that any play from here has.
    fn height(p: &Self::Position) -> u8
        ensures { result ≡ rules.height p.now };

    // The position as plain words. (It is no `From`: the laws of a game speak of it.)
    fn row(p: &Self::Position) -> [u64; ROW]
        ensures { result ≡ rules.row p.now };

    // The position of a row; of a row that is no position's, some position.
    fn position(row: &[u64; ROW]) -> Self::Position
        ensures { result ≡ rules.position row.now };

    // What `belongs` wants of the position.
    fn probe(p: &Self::Position) -> Self::Probe
        ensures { result ≡ probed p.now };

    // Whether the position of that probe belongs to the set. Of a probe that is no position's, nothing is said.
    fn belongs(s: &Self::Set, v: &Self::Probe) -> bool
        ensures { (p : Self.Position) → v.now ≡ probed p → result ≡ sets.member s.now p };

    // The set for an answer that needs no move.
    fn broad(p: &Self::Position) -> Self::Set
        ensures { result ≡ sets.broad p.now };

    // The pull of a move through a set. Of a move that is not the position's, nothing is said.
    fn pull(p: &Self::Position, m: &Self::Move, t: &Self::Set) -> Self::Set
        ensures { (i : ℕ) → i < rules.moves p.now → m.now ≡ moved p.now i → result ≡ sets.pull p.now i t.now };

    // What two sets that hold the position have in common, or less.
    fn narrow(p: &Self::Position, s: &Self::Set, t: &Self::Set) -> Self::Set
        ensures { result ≡ sets.narrow p.now s.now t.now };

    // How much a set weighs, by which tables may tell entries apart.
    fn weight(s: &Self::Set) -> u8
        ensures { result ≡ sets.weight s.now };

    ghost lawful: { Lawful rules sets };
}
