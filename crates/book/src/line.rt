ghost use Rattle.std.specs.Prelude.{◌≡◌, ℕ, ◌<◌, ◌≤◌, [], length, IfOk, MatchOption, ◌≢◌, slice_index};
ghost use Rattle.book.specs.Lines.{LF, TheFirstLine, TheLines};

use std::alloc::{AllocError, Global};

// How a line ends: at a line feed or at the book's end, with or without a carriage return just before.
#[derive(Clone, Copy, Debug, PartialEq, Eq)]
pub enum Ending {
    // A line feed.
    Feed,
    // A carriage return and a line feed.
    ReturnFeed,
    // The book's end.
    End,
    // A carriage return and the book's end.
    ReturnEnd,
}

// A line of a book, without its ending.
#[derive(Clone, Copy, Debug, PartialEq, Eq)]
pub struct Line<'a> {
    pub text: &'a [u8],
    pub ending: Ending,
}

// Where the first line feed stands, or the length where there is none.
fn feed_at(book: &[u8]) -> usize
    ensures within { result ≤ length book.now }
    ensures before { (k : ℕ) → k < result → slice_index book.now k ≢ LF }
    ensures here { result < length book.now → slice_index book.now result ≡ LF }
{
    book.iter()
        .position(|byte| *byte == b'\n')
        .unwrap_or(book.len())
}

// The first line of a book and the rest of the book; an empty book has none.
pub fn first_line<'a>(book: &'a [u8]) -> Option<(Line<'a>, &'a [u8])>
    ensures { MatchOption result (book.now ≡ []) (λ p. TheFirstLine book.now p.0 p.1.now) }
{
    if book.is_empty() {
        return None;
    }
    let (body, tail) = book.split_at(feed_at(book));
    let (text, ending, rest) = match (body.strip_suffix(b"\r"), tail.split_first()) {
        (Some(text), Some((_, rest))) => (text, Ending::ReturnFeed, rest),
        (None, Some((_, rest))) => (body, Ending::Feed, rest),
        (Some(text), None) => (text, Ending::ReturnEnd, tail),
        (None, None) => (body, Ending::End, tail),
    };
    Some((Line { text, ending }, rest))
}

// The lines of a book, in order.
pub fn lines<'a>(heap: Global, book: &'a [u8]) -> Result<Vec<Line<'a>>, AllocError>
    ensures { IfOk result (λ v. TheLines book.now v.items) }
{
    let mut found = Vec::new(heap);
    let mut rest = book;
    while let Some((line, after)) = first_line(rest) {
        found.push(line)?;
        rest = after;
    }
    Ok(found)
}
