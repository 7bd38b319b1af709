// Laws of the index of fingerprints: it holds what is defined for the held files, and a report can be read off it.
#![tactic(auto)]

ghost use Rattle.indexing.specs.Laws.{IndexLists, PairsByIndex};

use prints::hash::GramHash;

// For every hash: the index of files with distinct numbers lists exactly their fingerprints, each once, and fills as many entries as
// the files have chosen places.
pub fn index_lists<H: GramHash>()
    ensures { IndexLists H.GramHash.value H.Value.Ord.cmp }
{}

// For every hash: a report from the pairs that are read off the index is the report that is defined.
pub fn pairs_by_index<H: GramHash>()
    ensures { PairsByIndex H.GramHash.value H.Value.Ord.cmp }
{}
