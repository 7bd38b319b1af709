// The state of a C-like source.
ghost use Rattle.std.specs.Prelude.{ℕ, ◌≤◌, slice_index};

use std::num::NonZeroUsize;
use tokens::token::Fault;

// The lexemes that give one token a byte.
#[derive(Clone, Copy, PartialEq, Eq, Debug)]
pub enum Sort {
    Blank,
    Comment,
    Quoted,
    Name,
    Number,
    Mark,
}

// A lexeme that was begun, and how many of its bytes are still to come.
#[derive(Clone, Copy, PartialEq, Eq, Debug)]
pub struct Begun {
    pub sort: Sort,
    pub left: NonZeroUsize,
}

// A C-like file. `at` is the place of the next byte; `begun` is the lexeme that it belongs to, if it does not begin one;
// `unclosed` is the fault of the open comment that was begun, if one was.
#[derive(Clone, Copy)]
pub struct Clike<'a> {
    pub file: &'a [u8],
    pub at: usize,
    pub begun: Option<Begun>,
    pub unclosed: Option<Fault>,
    ghost bytes: { (k : ℕ) → slice_index file.now k ≤ 255 },
}
