// Names: a layer that makes one token of each name.
ghost use Rattle.std.specs.Prelude.{◌≡◌, drop, Some, None, IsSome, if◌then◌else◌};
ghost use Rattle.std.specs.List.{prefix_len};
ghost use Rattle.layers.specs.Layers.{deeper};
ghost use Rattle.tokens.specs.Tokens.{first, rest};
ghost use Rattle.layers.specs.Names.{starts_name, goes_on, too_many, name_end, named, named_ending};
ghost use Rattle.layers.specs.Naming.{fits_before, pending, names_left, names_ending};

use crate::onward::Onward;
use tokens::source::Source;
use tokens::token::{Cause, Class, Fault, Token};

// `held` is the token after the last name, which was read to see that the name ends there;
// `stopped` is the fault that a name of too many tokens gave.
#[derive(Drop)]
pub struct Names<S> {
    pub below: Onward<S>,
    pub held: Option<Token>,
    pub stopped: Option<Fault>,
}

// The most tokens that a name has.
const MOST_TOKENS: u16 = 255;

// The code of the token that stands for a name.
const NAME_CODE: u16 = 300;

fn starts_name(token: &Token) -> bool
    ensures { result ≡ starts_name token.now }
{
    token.class == Class::NameFirst
}

fn goes_on(token: &Token) -> bool
    ensures { result ≡ goes_on token.now }
{
    token.class == Class::NameFurther
}

// Whether a token can stand before what begins at `reached`. Each token that is read ahead can.
fn fits_before(token: &Token, reached: u32) -> bool
    ensures { result ≡ fits_before reached token.now }
{
    token.is_sound() && token.to <= reached
}

impl<S: Source> Names<S> {
    pub fn over(below: S) -> Names<S>
        ensures tokens { names_left S.Source.tokens result ≡ named (S.Source.tokens below) }
        ensures ending { names_ending S.Source.tokens S.Source.ending S.Source.depth result ≡ named_ending (deeper (S.Source.depth below)) (S.Source.tokens below) (S.Source.ending below) }
        ensures depth { deeper (S.Source.depth result.below.below) ≡ deeper (S.Source.depth below) }
    {
        Names {
            below: Onward::over(below),
            held: None,
            stopped: None,
        }
    }

    // The first token that is still to be looked at: the one read ahead, or the next of the list below.
    fn first_pending(&mut self) -> Result<Option<Token>, Fault>
        ensures answer { result ≡ first (pending S.Source.tokens self.old) (S.Source.ending self.old.below.below) }
        ensures left { pending S.Source.tokens self.new ≡ rest (pending S.Source.tokens self.old) }
        ensures none { self.new.held ≡ None }
        ensures stopped { self.new.stopped ≡ self.old.stopped }
        ensures ending { S.Source.ending self.new.below.below ≡ S.Source.ending self.old.below.below }
        ensures depth { S.Source.depth self.new.below.below ≡ S.Source.depth self.old.below.below }
    {
        match self.held.take() {
            Some(token) if fits_before(&token, self.below.reached) => Ok(Some(token)),
            _ => self.below.next(),
        }
    }

    // Reads the tokens that go on with a name which has come to `to`, and the one after them. Answers where the
    // name ends, or none if it has too many tokens.
    fn rest_of_name(&mut self, to: u32) -> Option<u32>
        requires { self.old.held ≡ None }
        ensures answer { result ≡ (if too_many (pending S.Source.tokens self.old) then None else Some (name_end to (pending S.Source.tokens self.old))) }
        ensures left { IsSome result → pending S.Source.tokens self.new ≡ drop (prefix_len goes_on (pending S.Source.tokens self.old)) (pending S.Source.tokens self.old) }
        ensures stopped { self.new.stopped ≡ self.old.stopped }
        ensures ending { S.Source.ending self.new.below.below ≡ S.Source.ending self.old.below.below }
        ensures depth { S.Source.depth self.new.below.below ≡ S.Source.depth self.old.below.below }
    {
        let mut to = to;
        for _ in 0..MOST_TOKENS {
            match self.below.next() {
                Ok(Some(token)) if goes_on(&token) => to = token.to,
                Ok(Some(token)) => {
                    self.held = Some(token);
                    return Some(to);
                }
                // The list below has ended; its ending comes again when it is asked for.
                _ => return Some(to),
            }
        }
        None
    }
}

impl<S: Source> Source for Names<S> {
    ghost tokens = { names_left S.Source.tokens };

    ghost ending = { names_ending S.Source.tokens S.Source.ending S.Source.depth };

    ghost depth = { λ s. deeper (S.Source.depth s.below.below) };

    fn lawful(&self) {
        self.below.lawful();
        self.below.below.lawful();
    }

    fn next(&mut self) -> Result<Option<Token>, Fault> {
        if let Some(fault) = self.stopped {
            return Err(fault);
        }
        let Some(first) = self.first_pending()? else {
            return Ok(None);
        };
        if !starts_name(&first) {
            return Ok(Some(first));
        }
        let Some(to) = self.rest_of_name(first.to) else {
            let fault = Fault {
                cause: Cause::LongName,
                place: first.from,
                depth: self.depth(),
            };
            self.stopped = Some(fault);
            return Err(fault);
        };
        Ok(Some(Token {
            code: NAME_CODE,
            class: Class::Made,
            from: first.from,
            to,
        }))
    }

    fn depth(&self) -> u8 {
        self.below.below.depth().saturating_add(1)
    }
}
