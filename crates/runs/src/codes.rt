// Tokens read as codes.
ghost use Rattle.runs.specs.Passages.{codes as token_codes};

use prints::walk::Codes;
use tokens::token::Token;

// The codes of tokens that stand in a slice, for the walk that chooses places. A type of its own, since Codes and Token are of other crates.
#[derive(Clone, Copy)]
pub struct TokenCodes<'a> {
    pub all: &'a [Token],
}

impl Codes for TokenCodes<'_> {
    ghost codes = { λ s. token_codes s.all.now };

    fn len(&self) -> usize {
        self.all.len()
    }

    fn code(&self, i: usize) -> u16 {
        self.all.get(i).map_or(0, |t| t.code)
    }
}
