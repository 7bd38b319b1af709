// What a library keeps: the lists that it was lent, the table of its files, and its plan.
ghost use Rattle.std.specs.Prelude.{◌≡◌, ◌≤◌, [], length};
ghost use Rattle.model.specs.Tables.{extent};

use crate::lengths::Lengths;
use crate::plan::Plan;
use arrayvec::ArrayVec;
use filling::entries::wipe;
use model::fingerprint::Fingerprint;
use model::table::Entry;
use prints::hash::GramHash;
use tokens::token::Token;

// Its ghost fields are what every call rests on and keeps, whatever the hash.
#[derive(Drop)]
pub struct Store<'a, 'b, H: GramHash> {
    pub tokens: &'a mut [Token],
    // how many entries of the token list are used; a count beside it, since the list is lent
    pub used: usize,
    pub table: ArrayVec<Entry, 64>,
    // the index is a slice and a count and no `OrderedList`: a field of that type over a record of a type parameter is not supported
    pub index: &'b mut [Fingerprint<H::Value>],
    // how many entries of the index are used
    pub prints: usize,
    pub plan: Lengths,
    ghost few: { length table.items ≤ 64 },
    ghost full: { used ≡ extent table.items },
    ghost within: { used ≤ length tokens.now },
    ghost room: { length tokens.now ≤ 1048576 },
    ghost places: { length index.now ≤ 1048576 },
    ghost indexed: { prints ≤ length index.now },
}

impl<'a, 'b, H: GramHash> Store<'a, 'b, H> {
    ghost use Rattle.library.specs.Stores.{Opened};
    ghost use Rattle.library.specs.States.{state};

    // A store of no files.
    pub fn new(
        plan: Plan<H>,
        tokens: &'a mut [Token],
        index: &'b mut [Fingerprint<H::Value>],
    ) -> Store<'a, 'b, H>
        requires few_tokens { length tokens.old ≤ 1048576 }
        requires few_places { length index.old ≤ 1048576 }
        ensures same_tokens { result.tokens.ghost_name ≡ tokens.entry.ghost_name }
        ensures same_index { result.index.ghost_name ≡ index.entry.ghost_name }
        ensures opened { Opened H.GramHash.value H.Value.Ord.cmp plan.k plan.t tokens.old index.old (state result) }
    {
        wipe(tokens, 0);
        Store {
            tokens,
            used: 0,
            table: ArrayVec::new(),
            index,
            prints: 0,
            plan: plan.lengths(),
        }
    }
}
