// A small game with gains, and with sets wider than one position, to try the definitions of the search on.
#![tactic(auto)]

mod game;
mod pile;

pub use game::{Stones, examples_right};
pub use pile::{Pile, PileSet};
