// One kind of ordered list, for every record that has a total order.
//
// A list is a lent slice with a count n: its first n entries rise strictly, the others are free. Every function says what it does for
// any slice and count within it; what rests on the order is promised where the first n rise. `OrderedList` keeps both in a struct, with
// the fact that they rise, so that its methods promise without it.
// The functions stay for a struct that keeps slice and count itself, where it cannot hold an `OrderedList`.
#![tactic(auto)]

pub mod batch;
pub mod edit;
pub mod insertion;
pub mod list;
pub mod search;
