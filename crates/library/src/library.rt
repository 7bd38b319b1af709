// The library.
ghost use Rattle.std.specs.Prelude.{◌≡◌, min, length};
ghost use Rattle.model.specs.Calls.{add, added, remove, removed, held, listed, report, reported};
ghost use Rattle.library.specs.Adding.{WorkKept};

use crate::plan::Plan;
use crate::store::Store;
use model::answers::{Added, Reported};
use model::fingerprint::Fingerprint;
use model::passage::Passage;
use model::refusal::Refusal;
use prints::hash::GramHash;
use prints::window::Placed;
use std::marker::Model;
use tokens::source::Source;
use tokens::token::{LIMIT, Token};

// A library stands for what its store holds, with what the ghost fields beneath say of that, and its index is right for the hash.
// A struct around the store, whose fields `run` has to see: a model hides which lists a library holds.
#[derive(Drop)]
pub struct Library<'a, 'b, H: GramHash> {
    store: Store<'a, 'b, H>,
}

impl<'a, 'b, H: GramHash> Model for Library<'a, 'b, H> {
    ghost use Rattle.library.specs.Stores.{Shaped, Sound};
    ghost use Rattle.library.specs.States.{state, shaped};

    ghost Value = { Shaped H.Value };

    ghost view = { λ l. shaped l.store };

    ghost invariant = { λ l. Sound H.GramHash.value H.Value.Ord.cmp (state l.store) };
}

// How many of so many entries are used.
pub(crate) fn capped(len: usize) -> usize
    ensures { result ≡ min len 1048576 }
{
    len.min(LIMIT)
}

impl<'a, 'b, H: GramHash> Library<'a, 'b, H> {
    ghost use Rattle.library.specs.Stores.{Opened, Kept, Told, Shape};

    // A library that holds no file, over the first 1,048,576 entries of these lists.
    pub fn open(
        plan: Plan<H>,
        tokens: &'a mut [Token],
        index: &'b mut [Fingerprint<H::Value>],
    ) -> Library<'a, 'b, H>
        ensures opened { Opened H.GramHash.value H.Value.Ord.cmp plan.k plan.t tokens.old index.old result.state }
        ensures shape { Shape result.state }
    {
        let room = capped(tokens.len());
        let places = capped(index.len());
        Library {
            store: Store::new(plan, &mut tokens[..room], &mut index[..places]),
        }
    }

    // Takes in the file that the source reads, under a number of its own. The work list serves the choice of places.
    pub fn add<S: Source + Drop>(
        &mut self,
        number: u16,
        source: S,
        work: &mut [Placed<H::Value>],
    ) -> Result<Added, Refusal>
        ensures told { Told H.GramHash.value H.Value.Ord.cmp self.old.state self.new.state (add number (S.Source.tokens source) (S.Source.ending source) (length work.old)) (added result) }
        ensures kept { Kept self.old.state self.new.state }
        ensures shape { Shape self.new.state }
        ensures work { WorkKept result work.old work.new }
    {
        self.store.add(number, source, work)
    }

    // Ends that a file is held.
    pub fn remove(&mut self, number: u16) -> Result<(), Refusal>
        ensures told { Told H.GramHash.value H.Value.Ord.cmp self.old.state self.new.state (remove number) (removed result) }
        ensures kept { Kept self.old.state self.new.state }
        ensures shape { Shape self.new.state }
    {
        self.store.remove(number)
    }

    // Writes the numbers of the held files into the list, in order of the Adds, and answers how many they are.
    pub fn held(&self, list: &mut [u16]) -> Result<usize, Refusal>
        ensures told { Told H.GramHash.value H.Value.Ord.cmp self.now.state self.now.state (held (length list.old)) (listed result list.new) }
        ensures shape { Shape self.now.state }
    {
        self.store.held(list)
    }

    // Writes the passages of a held file with all others into the list, and counts its pairs.
    pub fn report(&self, number: u16, list: &mut [Passage]) -> Result<Reported, Refusal>
        ensures told { Told H.GramHash.value H.Value.Ord.cmp self.now.state self.now.state (report number (length list.old)) (reported result list.new) }
        ensures shape { Shape self.now.state }
    {
        self.store.report(number, list)
    }
}
