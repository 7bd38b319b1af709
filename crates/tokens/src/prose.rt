// Prose: one token a byte.
ghost use Rattle.std.specs.Prelude.{◌≡◌, ℕ, ◌<◌, ◌≤◌, length, slice_index};
ghost use Rattle.tokens.specs.Proses.{prose_class, prose_from, prose_tokens};
ghost use Rattle.tokens.specs.Texts.{text_ending};

use crate::bytes::{is_blank, is_digit, is_letter};
use crate::source::Source;
use crate::token::{Cause, Class, Fault, LIMIT, Token};

// A file read as prose, from the place `at` on.
#[derive(Clone, Copy)]
pub struct Prose<'a> {
    pub file: &'a [u8],
    pub at: usize,
    ghost bytes: { (k : ℕ) → slice_index file.now k ≤ 255 },
}

impl<'a> Prose<'a> {
    pub fn new(file: &'a [u8]) -> Prose<'a>
        ensures tokens { prose_from result.file.now result.at ≡ prose_tokens file.now }
        ensures ending { text_ending result.file.now result.at ≡ text_ending file.now 0 }
    {
        Prose { file, at: 0 }
    }
}

// The class of the byte at place i of a file.
fn class_at(file: &[u8], i: usize) -> Class
    requires { i < length file.now }
    ensures { result ≡ prose_class file.now i }
{
    let b = file[i];
    let before = file[..i].last().copied();
    if is_blank(b) {
        Class::Blank
    } else if is_letter(b) {
        if before.is_some_and(is_letter) {
            Class::NameFurther
        } else {
            Class::NameFirst
        }
    } else if is_digit(b) {
        if before.is_some_and(is_digit) {
            Class::NumberFurther
        } else {
            Class::NumberFirst
        }
    } else {
        Class::Mark
    }
}

impl Source for Prose<'_> {
    ghost tokens = { λ s. prose_from s.file.now s.at };

    ghost ending = { λ s. text_ending s.file.now s.at };

    ghost depth = { λ _. 0 };

    fn lawful(&self) {}

    fn next(&mut self) -> Result<Option<Token>, Fault> {
        let i = self.at;
        if self.file.len() > LIMIT {
            return Err(Fault::in_file(Cause::TooLong, 0));
        }
        let Some(&b) = self.file.get(i) else {
            return Ok(None);
        };
        if b == 0 {
            return Err(Fault::in_file(Cause::ZeroByte, i as u32));
        }
        self.at = i + 1;
        Ok(Some(Token {
            code: u16::from(b),
            class: class_at(self.file, i),
            from: i as u32,
            to: i as u32 + 1,
        }))
    }

    fn depth(&self) -> u8 {
        0
    }
}
