// What a report looks at.
ghost use Rattle.std.specs.Prelude.{◌≡◌, ◌≤◌};
ghost use Rattle.model.specs.Files.{tokens_of};
ghost use Rattle.model.specs.Tables.{cut};

use crate::held::HeldFiles;
use tokens::token::Token;

// The held files, the number of the reported one with its tokens, and the length of a gram.
#[derive(Clone, Copy)]
pub struct Scope<'a> {
    pub held: HeldFiles<'a>,
    pub number: u16,
    pub own: &'a [Token],
    pub k: usize,
    ghost some: { 1 ≤ k },
    ghost own_is: { own.now ≡ tokens_of number (cut held.table.now held.tokens.now) },
}
