// The walk by which a library reports the passages of one held file.
//
// The index rises by value, so that the fingerprints of one value stand together in it. One walk over it meets every pair.
#![tactic(auto)]

mod groups;
pub mod held;
mod pairs;
pub mod report;
mod scope;
mod tally;
