// What a passage checker promises: theorems about every list of calls, above the definition of what each call answers.
#![tactic(auto)]

ghost use Rattle.promises.specs.Promises.{Promises, AllPairsCounted};

use prints::hash::GramHash;

// For every hash, every k and t, and all sizes of the lent lists: whatever calls are made, reports miss no long run and raise no false
// alarm, Held tells the held files, and a library opened afresh with the held files alone reports the same.
pub fn promises<H: GramHash>()
    ensures { Promises H.GramHash.value H.Value.Ord.cmp }
{}

// For every hash: the pairs of two files are the pairs of chosen places with one value, each counted once.
pub fn pairs_counted<H: GramHash>()
    ensures { AllPairsCounted H.GramHash.value H.Value.Ord.cmp }
{}
