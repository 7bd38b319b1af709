// The interface of every source of tokens.
ghost use Rattle.std.specs.Prelude.{◌≡◌, ℕ, ◌≤◌, List, Option};
ghost use Rattle.tokens.specs.declared.token.Token.{Token};
ghost use Rattle.tokens.specs.declared.token.Fault.{Fault};
ghost use Rattle.tokens.specs.Tokens.{Placed, first, rest};

use crate::token::{Fault, Token};

// A source stands for a list of tokens still to come, an ending (`None` where it is clean) and a depth,
// the number of layers above the file, counted up to 255.
pub trait Source {
    ghost tokens: { Self → List Token };

    ghost ending: { Self → Option Fault };

    ghost depth: { Self → ℕ };

    // The laws of every source, in whatever state: its list is well placed, and its depth at most 255.
    // Runs nothing: a caller that rests on the laws calls it to be told them. It is no law among the ghost members,
    // since the proof of one has to stand in specs/, which has definitions alone (for C-like files it is 900 lines).
    fn lawful(&self)
        ensures placed { Placed (tokens self.now) }
        ensures shallow { depth self.now ≤ 255 };

    // The first token, which is taken off the list; on an empty list the ending, every time.
    fn next(&mut self) -> Result<Option<Token>, Fault>
        ensures answer { result ≡ first (tokens self.old) (ending self.old) }
        ensures left { tokens self.new ≡ rest (tokens self.old) }
        ensures ends { ending self.new ≡ ending self.old }
        ensures stays { depth self.new ≡ depth self.old };

    // How many layers there are above the file.
    fn depth(&self) -> u8
        ensures { result ≡ depth self.now };
}
