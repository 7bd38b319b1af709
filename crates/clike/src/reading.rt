// A C-like file as a source of tokens.
ghost use Rattle.std.specs.Prelude.{◌≡◌, ◌+◌, ◌-◌, ◌<◌, ◌∷◌, length, Some, None, ◌≢◌, slice_index};
ghost use Rattle.std.specs.Option.{option_or};
ghost use Rattle.tokens.specs.declared.token.Cause.TheVariants.{OpenComment};
ghost use Rattle.tokens.specs.Texts.{file_fault};
ghost use Rattle.clike.specs.Texts.{text_read};
ghost use Rattle.clike.specs.Clikes.{byte_token, clike_tokens, clike_ending};
ghost use Rattle.clike.specs.Covering.{EndToEnd, CoversOnce};
ghost use Rattle.clike.specs.States.{sort_first, sort_further, IsLeft, NextByte, clike_left, ending_left};

use crate::cutting::cut;
use crate::lexeme::Lexeme;
use crate::state::{Begun, Clike, Sort};
use std::num::NonZeroUsize;
use tokens::source::Source;
use tokens::token::{Cause, Class, Fault, LIMIT, Token};

// The code of the keyword with the number 0.
const FIRST_KEYWORD: u16 = 256;

impl Sort {
    // The class of the first byte of a lexeme.
    fn first(self) -> Class
        ensures { result ≡ sort_first self }
    {
        match self {
            Sort::Blank => Class::Blank,
            Sort::Comment => Class::Comment,
            Sort::Quoted => Class::Quoted,
            Sort::Name => Class::NameFirst,
            Sort::Number => Class::NumberFirst,
            Sort::Mark => Class::Mark,
        }
    }

    // The class of its other bytes.
    fn further(self) -> Class
        ensures { result ≡ sort_further self }
    {
        match self {
            Sort::Name => Class::NameFurther,
            Sort::Number => Class::NumberFurther,
            alike => alike.first(),
        }
    }
}

impl Begun {
    // A lexeme of which some bytes are still to come; none where they all were read.
    fn of(sort: Sort, left: usize) -> Option<Begun>
        ensures { IsLeft sort left result }
    {
        NonZeroUsize::new(left).map(|left| Begun { sort, left })
    }
}

impl<'a> Clike<'a> {
    pub fn new(file: &'a [u8]) -> Clike<'a>
        ensures tokens { clike_left result ≡ clike_tokens (text_read file.now) }
        ensures ending { ending_left result ≡ clike_ending file.now }
        ensures chained { EndToEnd 0 (clike_left result) (length (text_read file.now)) }
        ensures once { CoversOnce (clike_left result) (length (text_read file.now)) }
    {
        Clike {
            file,
            at: 0,
            begun: None,
            unclosed: None,
        }
    }
}

// Each method asks that there is a next byte. It is no ghost field, since a source at its end has none.
impl Clike<'_> {
    // The token of the next byte.
    fn byte_token(&self, class: Class) -> Token
        requires { NextByte self.now.file.now self.now.at }
        ensures { result ≡ byte_token self.now.at class (slice_index self.now.file.now self.now.at) }
    {
        let from = self.at as u32;
        Token {
            code: u16::from(self.file[self.at]),
            class,
            from,
            to: from + 1,
        }
    }

    // The token of the next byte, which begins a lexeme of some bytes.
    fn spell(&mut self, sort: Sort, size: usize) -> Token
        requires byte { NextByte self.old.file.now self.old.at }
        requires some { 0 < size }
        ensures token { result ≡ byte_token self.old.at (sort_first sort) (slice_index self.old.file.now self.old.at) }
        ensures file { self.new.file ≡ self.old.file }
        ensures at { self.new.at ≡ self.old.at + 1 }
        ensures left { IsLeft sort (size - 1) self.new.begun }
        ensures unclosed { self.new.unclosed ≡ self.old.unclosed }
    {
        let token = self.byte_token(sort.first());
        self.at += 1;
        self.begun = Begun::of(sort, size - 1);
        token
    }

    // The comment that begins at the next byte is open: the list ends in its fault, unless the file has one of its own.
    fn note_open(&mut self)
        requires { NextByte self.old.file.now self.old.at }
        ensures file { self.new.file ≡ self.old.file }
        ensures at { self.new.at ≡ self.old.at }
        ensures unclosed { self.new.unclosed ≡ option_or self.old.unclosed (Some (file_fault OpenComment self.old.at)) }
    {
        let fault = Fault::in_file(Cause::OpenComment, self.at as u32);
        self.unclosed = self.unclosed.or(Some(fault));
    }

    // Begins the next lexeme: its first token.
    fn begin(&mut self) -> Token
        requires byte { NextByte self.old.file.now self.old.at }
        requires some { slice_index self.old.file.now self.old.at ≢ 0 }
        requires new { self.old.begun ≡ None }
        ensures token { clike_left self.old ≡ result ∷ clike_left self.new }
        ensures ends { ending_left self.new ≡ ending_left self.old }
    {
        let file = self.file;
        let (lexeme, _) = cut(&file[self.at..]);
        match lexeme {
            Lexeme::Nothing => unreachable(),
            Lexeme::Blank(run) => self.spell(Sort::Blank, run.len()),
            Lexeme::Comment(run) => self.spell(Sort::Comment, run.len()),
            Lexeme::OpenComment(run) => {
                self.note_open();
                self.spell(Sort::Comment, run.len())
            }
            Lexeme::Quoted(run) => self.spell(Sort::Quoted, run.len()),
            Lexeme::Name(run) => self.spell(Sort::Name, run.len()),
            Lexeme::Number(run) => self.spell(Sort::Number, run.len()),
            Lexeme::Mark(run) => self.spell(Sort::Mark, run.len()),
            Lexeme::Keyword(run, number) => {
                let from = self.at;
                self.at += run.len();
                Token {
                    code: FIRST_KEYWORD + u16::from(number),
                    class: Class::Keyword,
                    from: from as u32,
                    to: self.at as u32,
                }
            }
        }
    }
}

impl Source for Clike<'_> {
    ghost tokens = { clike_left };

    ghost ending = { ending_left };

    ghost depth = { λ _. 0 };

    fn lawful(&self) {}

    fn next(&mut self) -> Result<Option<Token>, Fault> {
        if self.file.len() > LIMIT {
            return Err(Fault::in_file(Cause::TooLong, 0));
        }
        let Some(b) = self.file.get(self.at) else {
            return self.unclosed.map_or(Ok(None), Err);
        };
        if *b == 0 {
            return Err(Fault::in_file(Cause::ZeroByte, self.at as u32));
        }
        let Some(begun) = self.begun else {
            return Ok(Some(self.begin()));
        };
        let token = self.byte_token(begun.sort.further());
        self.at += 1;
        self.begun = Begun::of(begun.sort, begun.left.get() - 1);
        Ok(Some(token))
    }

    fn depth(&self) -> u8 {
        0
    }
}
