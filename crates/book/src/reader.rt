ghost use Rattle.std.specs.Prelude.{◌≡◌, ℕ, ◌+◌, ◌^◌, ◌<◌, length, MatchResult, ◌≢◌};
ghost use Rattle.kayles.specs.declared.board.Pin.{Pin};
ghost use Rattle.kayles.specs.Rows.{row};
ghost use Rattle.book.specs.BoardLines.{FirstWrong, Shows, Wrong};
ghost use Rattle.book.specs.Letters.{letter};
ghost use Rattle.book.specs.Readings.{Reads};
ghost use Rattle.book.specs.Steps.{Grown, Told, borrowed};

use crate::fault::{Fault, Refusal};
use crate::token::{Placed, Token, board_token};
use kayles::{Board, MOST_PINS};

// How a board line begins, and how it ends.
const KAYLES_OPENING: &[u8] = b"[Kayles \"";

const CLOSING: &[u8] = b"\"]";

// What is wrong with a byte that is no pin, behind the pins of the board.
fn stray_fault(board: Board) -> Fault
    ensures { (c : ℕ) → ((p : Pin) → c ≢ letter p) → Wrong (length (row board)) c result }
{
    if board.len() >= MOST_PINS {
        Fault::TooManyPins
    } else {
        Fault::NotAPin
    }
}

// The board with the pin of one token more, or what is wrong with the token's byte.
fn grown(board: Board, placed: Placed<'_>) -> Result<Board, Refusal>
    requires { Told placed.token }
    ensures { Grown board (borrowed placed.entry.token) placed.entry.column result }
{
    let column = placed.column;
    match placed.token {
        Token::Pin(pin, _) => board.with(pin).ok_or(Refusal {
            fault: Fault::TooManyPins,
            column,
        }),
        Token::Stray(_) => Err(Refusal {
            fault: stray_fault(board),
            column,
        }),
    }
}

// The board that a text shows, or its first fault; the text begins after `skipped` bytes of its line.
fn read_board(text: &[u8], skipped: usize) -> Result<Board, Refusal>
    requires { skipped + length text.now < 2 ^ 64 }
    ensures { MatchResult result
        (λ b. Shows text.now (row b))
        (λ e. FirstWrong text.now skipped e.fault e.column) }
{
    let mut board = Board::empty();
    for (at, byte) in text.iter().enumerate() {
        board = grown(board, board_token(byte, skipped + at + 1))?;
    }
    Ok(board)
}

// Reads one line: the board that it shows, or nothing where it is no board line.
pub fn read_line(line: &[u8]) -> Result<Option<Board>, Refusal>
    ensures { Reads line.now result }
{
    let Some(rest) = line.strip_prefix(KAYLES_OPENING) else {
        return Ok(None);
    };
    let Some(text) = rest.strip_suffix(CLOSING) else {
        return Err(Refusal {
            fault: Fault::Unclosed,
            column: line.len(),
        });
    };
    Ok(Some(read_board(text, KAYLES_OPENING.len())?))
}
