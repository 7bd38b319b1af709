// Case: a layer that makes small letters of capitals.
ghost use Rattle.std.specs.Prelude.{◌≡◌};
ghost use Rattle.layers.specs.Layers.{deeper, small, lowered};

use tokens::source::Source;
use tokens::token::{Fault, Token};

#[derive(Drop)]
pub struct Case<S> {
    pub below: S,
}

impl<S: Source> Case<S> {
    pub fn over(below: S) -> Case<S>
        ensures tokens { lowered (S.Source.tokens result.below) ≡ lowered (S.Source.tokens below) }
        ensures ending { S.Source.ending result.below ≡ S.Source.ending below }
        ensures depth { deeper (S.Source.depth result.below) ≡ deeper (S.Source.depth below) }
    {
        Case { below }
    }
}

fn small_code(code: u16) -> u16
    ensures { result ≡ small code }
{
    match code {
        65..=90 => code + 32,
        _ => code,
    }
}

impl<S: Source> Source for Case<S> {
    ghost tokens = { λ s. lowered (S.Source.tokens s.below) };

    ghost ending = { λ s. S.Source.ending s.below };

    ghost depth = { λ s. deeper (S.Source.depth s.below) };

    fn lawful(&self) {
        self.below.lawful();
    }

    fn next(&mut self) -> Result<Option<Token>, Fault> {
        let next = self.below.next()?;
        Ok(next.map(|token| Token {
            code: small_code(token.code),
            ..token
        }))
    }

    fn depth(&self) -> u8 {
        self.below.depth().saturating_add(1)
    }
}
