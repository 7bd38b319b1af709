// Cutting bytes into lexemes.
ghost use Rattle.std.specs.Prelude.{◌≡◌, ◌<◌, ◌≤◌, map, length, take, drop, IfOk, Some, slice_index};
ghost use Rattle.std.specs.Fn.{FnOnceReturnsAt};
ghost use Rattle.std.specs.List.{flat_map};
ghost use Rattle.clike.specs.Cutting.{lexeme_bytes, lexeme_of, seen, Cuts};
ghost use Rattle.clike.specs.Keywords.{keyword_number};
ghost use Rattle.clike.specs.Lexemes.{read, word_kind, lexemes};

use crate::keyword::keyword_number;
use crate::lexeme::Lexeme;
use crate::scan::{comment_end, in_line, in_number, in_word, length_while, quoted_length};
use std::alloc::{AllocError, Global};

// The first lexeme, and the rest of the bytes. Reads up to the first zero byte.
pub fn cut<'a>(bytes: &'a [u8]) -> (Lexeme<'a>, &'a [u8])
    ensures { Cuts bytes.now result.0 result.1.now }
{
    let [b, body @ ..] = bytes else {
        return (Lexeme::Nothing, bytes);
    };
    match *b as char {
        '\0' => (Lexeme::Nothing, bytes),
        '\t'..='\r' | ' ' => cut_at(bytes, 1, Lexeme::Blank),
        '/' => cut_slash(bytes),
        '"' | '\'' => cut_at(bytes, 1 + quoted_length(*b, body), Lexeme::Quoted),
        'A'..='Z' | 'a'..='z' | '_' => cut_at(bytes, length_while(bytes, in_word), word),
        '0'..='9' => cut_at(bytes, length_while(bytes, in_number), Lexeme::Number),
        _ => cut_at(bytes, 1, Lexeme::Mark),
    }
}

// All lexemes of the bytes up to the first zero byte, cut from the left.
pub fn cut_all<'a>(heap: Global, bytes: &'a [u8]) -> Result<Vec<Lexeme<'a>>, AllocError>
    ensures lexemes { IfOk result (λ v. map seen v.items ≡ map Some (lexemes (read bytes.now))) }
    ensures whole { IfOk result (λ v. flat_map lexeme_bytes v.items ≡ read bytes.now) }
{
    // A loop: `collect` would want an iterator type of its own for this one use.
    let mut list = Vec::new(heap);
    let mut left = bytes;
    loop {
        let (lexeme, rest) = cut(left);
        if let Lexeme::Nothing = lexeme {
            return Ok(list);
        }
        list.push(lexeme)?;
        left = rest;
    }
}

// The first bytes as the lexeme that is made of them, and the rest.
fn cut_at<'a, F: FnOnce(&'a [u8]) -> Lexeme<'a>>(
    bytes: &'a [u8],
    size: usize,
    make: F,
) -> (Lexeme<'a>, &'a [u8])
    requires within { size ≤ length bytes.now }
    requires callable { F.IsAlwaysCallable make }
    ensures lexeme { FnOnceReturnsAt F.FnOnce make (take size bytes.now) result.0 }
    ensures rest { result.1.now ≡ drop size bytes.now }
{
    let (run, rest) = bytes.split_at(size);
    (make(run), rest)
}

// A slash begins a comment of either kind, or is a mark.
fn cut_slash<'a>(bytes: &'a [u8]) -> (Lexeme<'a>, &'a [u8])
    requires some { 0 < length bytes.now }
    requires slash { slice_index bytes.now 0 ≡ 47 }
    ensures { Cuts bytes.now result.0 result.1.now }
{
    match bytes {
        [b'/', b'*', body @ ..] => match comment_end(body) {
            Ok(n) => cut_at(bytes, 2 + n, Lexeme::Comment),
            Err(n) => cut_at(bytes, 2 + n, Lexeme::OpenComment),
        },
        [b'/', b'/', ..] => cut_at(bytes, length_while(bytes, in_line), Lexeme::Comment),
        _ => cut_at(bytes, 1, Lexeme::Mark),
    }
}

// A run of letters, digits and `_` as a lexeme: a keyword or a name.
fn word<'a>(run: &'a [u8]) -> Lexeme<'a>
    ensures { seen result ≡ lexeme_of (word_kind (keyword_number run.now)) run.now }
{
    match keyword_number(run) {
        Some(number) => Lexeme::Keyword(run, number),
        None => Lexeme::Name(run),
    }
}
