ghost use Rattle.std.specs.Prelude.{◌≡◌};
ghost use Rattle.book.specs.Steps.{Told, borrowed};

use kayles::Pin;

// A part of a line, borrowed from it. It is no `Result`: the tokens of deals will be further variants.
#[derive(Clone, Copy)]
pub(crate) enum Token<'a> {
    // A pin of a board.
    Pin(Pin, &'a u8),
    // A byte that is no token of its text.
    Stray(&'a u8),
}

// A token with the column of its byte in the line, counted from 1.
#[derive(Clone, Copy)]
pub(crate) struct Placed<'a> {
    pub(crate) token: Token<'a>,
    pub(crate) column: usize,
}

// The token that a byte of a board's text is, in that column of its line.
pub(crate) fn board_token<'a>(byte: &'a u8, column: usize) -> Placed<'a>
    ensures told { Told result.token }
    ensures byte { borrowed result.token ≡ byte.now }
    ensures column { result.column ≡ column }
{
    let token = match *byte {
        b'X' => Token::Pin(Pin::Standing, byte),
        b'.' => Token::Pin(Pin::Down, byte),
        _ => Token::Stray(byte),
    };
    Placed { token, column }
}
