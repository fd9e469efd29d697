use crate::board::Board;

// A board and the side to move.
#[derive(Clone, Copy, PartialEq, Eq, Debug)]
pub struct Position {
    pub board: Board,
    // Whether the counting side is to move.
    pub counting: bool,
}

// A move: the `pins` pins from pin `pin` on, one or two of them, are knocked down. Pins are counted from 1.
#[derive(Clone, Copy, PartialEq, Eq, Debug)]
pub struct Knock {
    pub pin: u8,
    pub pins: u8,
}
