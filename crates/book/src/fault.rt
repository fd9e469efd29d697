ghost use Rattle.std.specs.Prelude.{◌≡◌, Some};
ghost use Rattle.book.specs.Faults.{number as number_of, fault_name, refusal_text};

use std::error::Error;
use std::fmt;

// What can be wrong with a book or with one of its lines, by the number under which it is printed.
#[derive(Clone, Copy, Debug, PartialEq, Eq)]
pub enum Fault {
    // A board line with no closing `"]` after its opening.
    Unclosed = 2,
    // A byte in a board that is neither X nor a dot.
    NotAPin = 8,
    // A 33rd byte in a board.
    TooManyPins = 9,
    // More than 8,192 bytes in a book.
    BookTooLong = 12,
}

impl Fault {
    // The number under which the fault is printed. (A cast is not generic, so each numbered enum has its own call.)
    pub fn number(self) -> u8
        ensures { result ≡ number_of self }
    {
        self as u8
    }
}

impl fmt::Display for Fault {
    ghost output = { λ f. Some (fault_name f) };

    fn fmt<W: fmt::Write>(&self, f: &mut fmt::Formatter<W>) -> fmt::Result {
        write!(f, "fault {}", self.number())
    }
}

// Why a line is refused: the first fault met, and the column of its byte, counted from 1.
#[derive(Clone, Copy, Debug, PartialEq, Eq)]
pub struct Refusal {
    pub fault: Fault,
    pub column: usize,
}

impl fmt::Display for Refusal {
    ghost output = { λ e. Some (refusal_text e) };

    fn fmt<W: fmt::Write>(&self, f: &mut fmt::Formatter<W>) -> fmt::Result {
        write!(f, "{} column {}", self.fault, self.column)
    }
}

impl Error for Refusal {}
