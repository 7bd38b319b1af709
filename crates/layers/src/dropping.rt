// Drop: a layer that leaves out the tokens of one class.
ghost use Rattle.std.specs.Prelude.{◌≡◌, ◌<◌, ◌⊎◌};
ghost use Rattle.layers.specs.Layers.{deeper, without};

use tokens::source::Source;
use tokens::token::{Fault, Token};

// The class is a number, and no `Class`, since one may be asked for that is none. Tokens have the classes 1 to 10,
// so a layer with another number leaves out nothing.
#[derive(Drop)]
pub struct DropClass<S> {
    pub below: S,
    pub class: u8,
}

impl<S: Source> DropClass<S> {
    pub fn over(below: S, class: u8) -> DropClass<S>
        ensures tokens { without result.class (S.Source.tokens result.below) ≡ without class (S.Source.tokens below) }
        ensures ending { S.Source.ending result.below ≡ S.Source.ending below }
        ensures depth { deeper (S.Source.depth result.below) ≡ deeper (S.Source.depth below) }
        ensures idle { (class ≡ 0) ⊎ (10 < class) → without class (S.Source.tokens below) ≡ S.Source.tokens below }
    {
        below.lawful();
        DropClass { below, class }
    }
}

impl<S: Source> Source for DropClass<S> {
    ghost tokens = { λ s. without s.class (S.Source.tokens s.below) };

    ghost ending = { λ s. S.Source.ending s.below };

    ghost depth = { λ s. deeper (S.Source.depth s.below) };

    fn lawful(&self) {
        self.below.lawful();
    }

    fn next(&mut self) -> Result<Option<Token>, Fault> {
        while let Some(token) = self.below.next()? {
            if u8::from(token.class) != self.class {
                return Ok(Some(token));
            }
        }
        Ok(None)
    }

    fn depth(&self) -> u8 {
        self.below.depth().saturating_add(1)
    }
}
