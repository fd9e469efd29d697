ghost use Rattle.std.specs.Prelude.{◌^◌, ◌<◌, ◌≤◌};
ghost use Rattle.kayles.specs.Limits.{most_pins};

// The most pins that a board can have.
pub const MOST_PINS: u8 = 32;

// One pin of a board.
#[derive(Clone, Copy, PartialEq, Eq, Debug)]
pub enum Pin {
    Standing = 1,
    Down = 0,
}

// A row of pins. Bit i of `standing` is 1 where pin i + 1 stands. Both are plain words, as positions are; contracts read them
// as `row`. A model would not do: the laws of a game hold of every value, and a row may be longer than a board.
#[derive(Clone, Copy, PartialEq, Eq, Debug)]
pub struct Board {
    pub(crate) count: u8,
    pub(crate) standing: u32,
    ghost few: { count ≤ most_pins },
    ghost within: { standing < 2 ^ count },
}
