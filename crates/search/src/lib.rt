// What games, their sets and their tables mean, the interfaces that they fill in, and what is proved of every search over
// them. The definitions are in specs/.
#![tactic(auto)]

mod call;
mod entry;
mod game;
mod table;
mod theorems;

pub use call::{Answer, BestMove, Call, CallError, Outcome, Reply, Solution};
pub use entry::{Bound, Entry};
pub use game::{Child, Game, ROW};
pub use table::Table;
pub use theorems::{bare_right, sessions_right, visits_right, worth_right};
