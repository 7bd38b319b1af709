// Ending that a file is held.
ghost use Rattle.std.specs.Prelude.{◌≡◌, ◌+◌, ◌-◌, ◌≤◌, ◌++◌, length, take, drop, replicate};
ghost use Rattle.runs.specs.Shares.{unused};
ghost use Rattle.model.specs.Tables.{At};
ghost use Rattle.model.specs.Calls.{remove, removed};
ghost use Rattle.library.specs.Stores.{Step};
ghost use Rattle.library.specs.Removal.{TakenOut};

use crate::store::Store;
use filling::entries::{close_gap, wipe};
use model::refusal::{Reason, Refusal};
use model::table::{Spot, find};
use ordered::edit::remove_where;
use prints::hash::GramHash;
use tokens::token::Token;

// Moves the used tokens behind the `len` from `start` on up, and leaves as many unused behind them.
fn close_tokens(tokens: &mut [Token], start: usize, len: usize, used: usize)
    requires within { start + len ≤ used }
    requires used { used ≤ length tokens.old }
    ensures { tokens.new ≡ take start tokens.old ++ take (used - (start + len)) (drop (start + len) tokens.old) ++ (replicate len unused ++ drop used tokens.old) }
{
    close_gap(tokens, start, len, used);
    wipe(&mut tokens[0..used], used - len);
}

impl<H: GramHash> Store<'_, '_, H> {
    ghost use Rattle.library.specs.States.{state};

    fn take_out(&mut self, number: u16, spot: Spot)
        requires { At number self.old.table.items spot }
        ensures { TakenOut H.Value.Ord.cmp (state self.old) (state self.new) number spot }
    {
        self.prints = remove_where(self.index, self.prints, |x| x.file == number);
        close_tokens(self.tokens, spot.start, spot.len, self.used);
        self.table.remove(spot.slot);
        self.used -= spot.len;
    }

    pub fn remove(&mut self, number: u16) -> Result<(), Refusal>
        ensures { Step H.GramHash.value H.Value.Ord.cmp (state self.old) (state self.new) (remove number) (removed result) }
    {
        let Some(spot) = find(self.table.as_slice(), number) else {
            return Err(Refusal::plain(Reason::RemoveUnheld));
        };
        self.take_out(number, spot);
        Ok(())
    }
}
