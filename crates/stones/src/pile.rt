ghost use Rattle.std.specs.Prelude.{◌≤◌};
ghost use Rattle.stones.specs.Limits.{most_stones};

// The most stones in a pile.
pub const MOST_STONES: u64 = 60;

// A pile of stones and the side to move. The colour has no say in the play.
#[derive(Clone, Copy)]
pub struct Pile {
    pub(crate) stones: u8,
    pub(crate) counting: bool,
    pub(crate) red: bool,
    ghost few: { stones ≤ most_stones },
}

// The piles of a size with a side to move, of either colour.
#[derive(Clone, Copy, PartialEq, Eq)]
pub struct PileSet {
    pub(crate) stones: u8,
    pub(crate) counting: bool,
}
