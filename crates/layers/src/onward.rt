// A source with the byte place that it has reached, for layers that read a token ahead: what they owe rests
// on this place alone. An invariant would have to speak of the tokens of a type parameter, and each definition that names
// the struct would then take one more argument.
ghost use Rattle.std.specs.Prelude.{◌≡◌, Some, Ok};
ghost use Rattle.layers.specs.Onwards.{onward, reached_by};
ghost use Rattle.tokens.specs.declared.token.Token.{Token};
ghost use Rattle.tokens.specs.Tokens.{Sound, PlacedFrom, first, rest};

use tokens::source::Source;
use tokens::token::{Fault, Token};

// What is to come begins at `reached` or later. A token that does not is passed over; since every list is
// well placed, there is none.
#[derive(Drop)]
pub struct Onward<S> {
    pub below: S,
    pub reached: u32,
}

impl<S: Source> Onward<S> {
    pub fn over(below: S) -> Onward<S>
        ensures tokens { onward result.reached (S.Source.tokens result.below) ≡ S.Source.tokens below }
        ensures ending { S.Source.ending result.below ≡ S.Source.ending below }
        ensures depth { S.Source.depth result.below ≡ S.Source.depth below }
    {
        Onward { below, reached: 0 }
    }

    // The laws of the list to come.
    pub fn lawful(&self)
        ensures { PlacedFrom self.now.reached (onward self.now.reached (S.Source.tokens self.now.below)) }
    {
        self.below.lawful();
    }

    // The next token, as of a source; its end is the place reached then.
    pub fn next(&mut self) -> Result<Option<Token>, Fault>
        ensures answer { result ≡ first (onward self.old.reached (S.Source.tokens self.old.below)) (S.Source.ending self.old.below) }
        ensures left { onward self.new.reached (S.Source.tokens self.new.below) ≡ rest (onward self.old.reached (S.Source.tokens self.old.below)) }
        ensures ends { S.Source.ending self.new.below ≡ S.Source.ending self.old.below }
        ensures stays { S.Source.depth self.new.below ≡ S.Source.depth self.old.below }
        ensures sound { (t : Token) → result ≡ Ok (Some t) → Sound t }
        ensures reaches { self.new.reached ≡ reached_by result self.old.reached }
    {
        self.below.lawful();
        while let Some(token) = self.below.next()? {
            if token.from >= self.reached {
                self.reached = token.to;
                return Ok(Some(token));
            }
        }
        Ok(None)
    }
}
