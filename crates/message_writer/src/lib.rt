// How every writer begins and ends: the checks before its first byte, and its answer. Between them it stores its fields (`field_writer`).
#![tactic(auto)]

ghost use Rattle.std.specs.Prelude.{◌≡◌, true, ◌+◌};
ghost use Rattle.text.specs.Utf8.{well_formed};
ghost use Rattle.layout.specs.Writing.{length_of};
ghost use Rattle.message_writer.specs.Writers.{told_of, Ends, admitted};

use wire::{Cursor, LONGEST_MESSAGE, Refusal};

// What a writer answers.
#[derive(Clone, Copy)]
pub enum Written {
    // So many bytes were stored, from the start of the lent buffer on.
    Stored { len: usize },
    // Document 01's number of refusal, and its place: of a writer 0. No byte of the buffer has changed.
    Refused { number: u8, place: usize },
}

impl Written {
    // How many bytes were stored: none where the writer refused.
    pub fn len(self) -> usize
        ensures { result ≡ length_of (told_of self) }
    {
        match self {
            Written::Stored { len } => len,
            Written::Refused { .. } => 0,
        }
    }
}

// The answer of a writer that ends at this cursor.
pub fn finish(c: Cursor) -> Written
    ensures { Ends c result }
{
    let code = c.code;
    let at = c.at;
    if code != Refusal::NONE {
        return Written::Refused {
            number: code,
            place: at,
        };
    }
    Written::Stored { len: at }
}

// All of `s` is well-formed text.
pub fn is_text(s: &[u8]) -> bool
    ensures { result ≡ well_formed s.now }
{
    text::well_formed_end(s) == s.len()
}

// Where a message is stored from: the start of a buffer of `len` bytes, or the refusal of what is checked before its first byte.
// `first` and `second` are the lengths of its runs, 0 for one that it does not have, and `rest` is the size of all else. Refuses 5, 2, 7.
pub fn admit(texts: bool, first: usize, second: usize, rest: usize, len: usize) -> Cursor
    ensures { result ≡ admitted texts (first + second + rest) len }
{
    if texts {
        return measured(first, second, rest, len);
    }
    Cursor::MALFORMED_TEXT
}

// The tests of each length keep the sum from wrapping.
fn measured(first: usize, second: usize, rest: usize, len: usize) -> Cursor
    ensures { result ≡ admitted true (first + second + rest) len }
{
    if LONGEST_MESSAGE < first {
        return Cursor::OVERSIZE;
    }
    if LONGEST_MESSAGE < second {
        return Cursor::OVERSIZE;
    }
    if LONGEST_MESSAGE < rest {
        return Cursor::OVERSIZE;
    }
    let size = first + second + rest;
    if LONGEST_MESSAGE < size {
        return Cursor::OVERSIZE;
    }
    if len < size {
        return Cursor::BUFFER_TOO_SMALL;
    }
    Cursor::START
}
