// Kayles: boards of up to 32 pins in a row, the game on them, and its sets.
#![tactic(auto)]

mod board;
mod game;
mod play;
mod position;
mod row;
mod runs;
mod tally;

pub use board::{Board, MOST_PINS, Pin};
pub use game::{Kayles, rules_right, sets_right};
pub use position::{Knock, Position};
pub use runs::{Run, Runs};
pub use tally::RunSet;
