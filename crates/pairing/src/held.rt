// The held files as a report finds them.
ghost use Rattle.std.specs.Prelude.{◌≡◌, ◌≤◌, true, false, length, MatchOption};
ghost use Rattle.model.specs.Files.{known, tokens_of};
ghost use Rattle.model.specs.Tables.{extent};

use model::table::{Entry, find};
use tokens::token::Token;

// The table of the held files, whose tokens lie end to end in its order.
#[derive(Clone, Copy)]
pub struct HeldFiles<'a> {
    pub tokens: &'a [Token],
    pub table: &'a [Entry],
    ghost within: { extent table.now ≤ length tokens.now },
    ghost few: { length tokens.now ≤ 1048576 },
}

impl<'a> HeldFiles<'a> {
    ghost use Rattle.pairing.specs.Scopes.{held_files};

    // The tokens of the file of a number, if it is held.
    pub fn tokens_of(&self, number: u16) -> Option<&'a [Token]>
        ensures { MatchOption result (known number (held_files self.now) ≡ false) (λ ts. (known number (held_files self.now) ≡ true) × (ts.now ≡ tokens_of number (held_files self.now))) }
    {
        let spot = find(self.table, number)?;
        let end = spot.start + spot.len;
        Some(&self.tokens[spot.start..end])
    }

    // The same, and no tokens where no such file is held.
    pub fn tokens_or_none(&self, number: u16) -> &'a [Token]
        ensures { result.now ≡ tokens_of number (held_files self.now) }
    {
        self.tokens_of(number).unwrap_or(&[])
    }
}
