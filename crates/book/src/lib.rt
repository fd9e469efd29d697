// The book of boards: its lines, what a line says, and the report that a proofreader gets.
#![tactic(auto)]

mod fault;
mod line;
mod reader;
mod report;
mod token;

pub use fault::{Fault, Refusal};
pub use line::{Ending, Line, first_line, lines};
pub use reader::read_line;
pub use report::proofread;
