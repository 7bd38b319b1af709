// How far runs, quotes and comments go. Each scan stops at a zero byte, where reading ends.
ghost use Rattle.std.specs.Prelude.{◌≡◌, ℕ, ◌≤◌, Bool, false, length};
ghost use Rattle.std.specs.List.{prefix_len};
ghost use Rattle.clike.specs.Lexemes.{read, in_word, in_number, in_line, quoted_on};
ghost use Rattle.clike.specs.Scans.{Computes, in_run, comment_end, end_size};

use tokens::bytes::{is_digit, is_letter};

// What a run consists of.
#[derive(Clone, Copy, PartialEq, Eq, Debug)]
pub enum Run {
    // Letters, digits and `_`.
    Word,
    // Letters, digits, `_` and `.`.
    Number,
    // All bytes but line feeds.
    Line,
}

// The bytes of keywords and names.
pub fn in_word(b: u8) -> bool
    ensures { result ≡ in_word b }
{
    is_letter(b) || b == b'_' || is_digit(b)
}

// The bytes of numbers.
pub fn in_number(b: u8) -> bool
    ensures { result ≡ in_number b }
{
    in_word(b) || b == b'.'
}

// The bytes of a comment that ends with its line.
pub fn in_line(b: u8) -> bool
    ensures { result ≡ in_line b }
{
    b != b'\n'
}

// How many bytes at the front pass the test; a zero byte ends the run.
pub fn length_while<F: Fn(u8) -> bool>(bytes: &[u8], test: F) -> usize
    requires { F.IsAlwaysCallable test }
    ensures count { (p : ℕ → Bool) → Computes (F.post test) p → result ≡ prefix_len p (read bytes.now) }
    ensures bound { result ≤ length bytes.now }
{
    bytes.iter().take_while(|b| **b != 0 && test(**b)).count()
}

// How many bytes the longest run at the front has.
pub fn run_length(run: Run, bytes: &[u8]) -> usize
    ensures count { result ≡ prefix_len (in_run run) (read bytes.now) }
    ensures bound { result ≤ length bytes.now }
{
    match run {
        Run::Word => length_while(bytes, in_word),
        Run::Number => length_while(bytes, in_number),
        Run::Line => length_while(bytes, in_line),
    }
}

// How many of the bytes after an opening quote belong to its lexeme.
pub fn quoted_length(quote: u8, body: &[u8]) -> usize
    ensures count { result ≡ quoted_on quote false (read body.now) }
    ensures bound { result ≤ length body.now }
{
    // A loop: what a byte means hangs on the ones before it, so that no test of single bytes finds the end.
    let mut taken = false;
    for (i, b) in body.iter().enumerate() {
        if *b == 0 {
            return i;
        }
        if taken {
            taken = false;
        } else if *b == quote {
            return i + 1;
        } else if *b == b'\n' {
            return i;
        } else {
            taken = *b == b'\\';
        }
    }
    body.len()
}

// Where a comment ends, in bytes after its `/*`: `Ok` behind the first `*/`, or `Err` where reading ends with none.
pub fn comment_end(body: &[u8]) -> Result<usize, usize>
    ensures ends { result ≡ comment_end (read body.now) }
    ensures bound { end_size result ≤ length body.now }
{
    // A loop over places: `windows(2)` would leave out the last byte, which may be zero.
    for i in 0..body.len() {
        match &body[i..] {
            [0, ..] => return Err(i),
            [b'*', b'/', ..] => return Ok(i + 2),
            _ => {}
        }
    }
    Err(body.len())
}
