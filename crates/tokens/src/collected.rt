// A list of tokens in memory, which is a source again.
ghost use Rattle.std.specs.Prelude.{◌≡◌, ◌≤◌, true};
ghost use Rattle.std.specs.Vec.Iter.{into_iter_items};
ghost use Rattle.tokens.specs.Tokens.{placed_from};

use crate::token::{Fault, Token};
use std::alloc::Global;
use std::vec::IntoIter;

// The tokens that a source had to come, with its ending and its depth. `shallow` is said, though it holds of every `u8`,
// since `lawful` is not told the range of a field; `placed` is a test, since its definition goes by recursion over the list.
#[derive(Drop)]
pub struct Collected {
    pub list: IntoIter<Token, Global>,
    pub ending: Option<Fault>,
    pub depth: u8,
    ghost shallow: { depth ≤ 255 },
    ghost placed: { placed_from 0 (into_iter_items list) ≡ true },
}
