ghost use Rattle.std.specs.Prelude.{IfOk, Some, string_bytes};
ghost use Rattle.kayles.specs.Rows.{row};
ghost use Rattle.kayles.specs.Tallies.{all_runs};
ghost use Rattle.book.specs.Reports.{Answered, TheReport, board_text, runs_text};

use crate::fault::Fault;
use crate::line::lines;
use crate::reader::read_line;
use kayles::Board;
use std::alloc::{AllocError, Global};
use std::fmt;

// The lengths of the runs, from the left, each after a space, or a word where there are none.
#[derive(Clone, Copy)]
struct RunLengths(Board);

impl fmt::Display for RunLengths {
    ghost output = { λ s. Some (runs_text (all_runs (row s.0))) };

    fn fmt<W: fmt::Write>(&self, f: &mut fmt::Formatter<W>) -> fmt::Result {
        if self.0.standing() == 0 {
            return write!(f, " none");
        }
        for run in self.0.runs() {
            write!(f, " {}", run.len)?;
        }
        Ok(())
    }
}

// What is printed for a line that shows a board.
#[derive(Clone, Copy)]
struct BoardReport {
    line_number: usize,
    board: Board,
}

impl fmt::Display for BoardReport {
    ghost output = { λ s. Some (board_text s.line_number (row s.board) (all_runs (row s.board))) };

    fn fmt<W: fmt::Write>(&self, f: &mut fmt::Formatter<W>) -> fmt::Result {
        let line_number = self.line_number;
        let pins = self.board.len();
        let standing = self.board.standing();
        let lengths = RunLengths(self.board);
        write!(
            f,
            "kayles {line_number}\npins {pins} standing {standing}\nruns{lengths}\n"
        )
    }
}

// What is printed for a line.
fn answer(heap: Global, line_number: usize, line: &[u8]) -> Result<String, AllocError>
    ensures { IfOk result (λ s. Answered line_number line.now (string_bytes s)) }
{
    match read_line(line) {
        Ok(None) => Ok(String::new(heap)),
        Ok(Some(board)) => BoardReport { line_number, board }.to_string(heap),
        Err(refusal) => format!(in heap; "line {line_number} {refusal}\n"),
    }
}

// The most bytes that a book may have.
const BOOK_LIMIT: usize = 8192;

// The report on a book: what is printed for it, line after line.
pub fn proofread(heap: Global, book: &[u8]) -> Result<String, AllocError>
    ensures { IfOk result (λ s. TheReport book.now (string_bytes s)) }
{
    if book.len() > BOOK_LIMIT {
        return format!(in heap; "book {}\n", Fault::BookTooLong);
    }
    let found = lines(heap, book)?;
    let mut report = String::new(heap);
    for (i, line) in found.iter().enumerate() {
        report.push_str(answer(heap, i + 1, line.text)?.as_str())?;
    }
    Ok(report)
}
