// The passages of a held file with the others.
ghost use Rattle.std.specs.Prelude.{length};
ghost use Rattle.model.specs.Calls.{report, reported};
ghost use Rattle.library.specs.Stores.{Step};

use crate::store::Store;
use model::answers::Reported;
use model::passage::Passage;
use model::refusal::Refusal;
use pairing::held::HeldFiles;
use pairing::report::report;
use prints::hash::GramHash;

impl<H: GramHash> Store<'_, '_, H> {
    ghost use Rattle.library.specs.States.{state};

    pub fn report(&self, number: u16, list: &mut [Passage]) -> Result<Reported, Refusal>
        ensures { Step H.GramHash.value H.Value.Ord.cmp (state self.now) (state self.now) (report number (length list.old)) (reported result list.new) }
    {
        let held = HeldFiles {
            tokens: self.tokens,
            table: self.table.as_slice(),
        };
        let index = &self.index[..self.prints];
        report(held, index, number, self.plan.k, list)
    }
}
