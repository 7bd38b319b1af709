// Fingerprints: hashes of grams of codes, and the choice of places by winnowing.
//
// Hashes see codes only, and the choice sees ordered values only.
#![tactic(auto)]

ghost use Rattle.order.specs.Total.{TotalOrder};
ghost use Rattle.prints.specs.Choice.{Agrees, NoWindow};
ghost use Rattle.prints.specs.Worked.{Worked};

use hash::GramHash;

pub mod cyclic;
pub mod hash;
pub mod list;
pub mod pair;
pub mod polynomial;
mod table;
pub mod walk;
pub mod window;
pub mod winnowing;

// For every order of values: the places that `chosen` computes are exactly those that are the rightmost smallest of some window.
pub fn choice_agrees<V>()
    ensures { Agrees V }
{}

// For every order of values: where there are fewer values than a window has, no place is chosen.
pub fn no_window<V>()
    ensures { NoWindow V }
{}

// Every hash has a total order of its values.
pub fn values_ordered<H: GramHash>()
    ensures { TotalOrder H.Value.Ord.cmp }
{}

// The definitions give the numbers that were worked by hand.
pub fn worked_cases()
    ensures { Worked }
{}
