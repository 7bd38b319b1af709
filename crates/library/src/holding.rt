// The numbers of the held files.
ghost use Rattle.std.specs.Prelude.{length};
ghost use Rattle.model.specs.Calls.{held, listed};
ghost use Rattle.library.specs.Stores.{Step};

use crate::store::Store;
use filling::entries::write_numbers;
use model::refusal::{Reason, Refusal};
use prints::hash::GramHash;

impl<H: GramHash> Store<'_, '_, H> {
    ghost use Rattle.library.specs.States.{state};

    pub fn held(&self, list: &mut [u16]) -> Result<usize, Refusal>
        ensures { Step H.GramHash.value H.Value.Ord.cmp (state self.now) (state self.now) (held (length list.old)) (listed result list.new) }
    {
        list.fill(0);
        let count = self.table.len();
        if list.len() < count {
            return Err(Refusal::plain(Reason::HeldShort));
        }
        write_numbers(self.table.as_slice(), list);
        Ok(count)
    }
}
