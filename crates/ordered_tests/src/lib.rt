// A record and its key, as users of the ordered list write them; a struct that holds the list, and a slice that is lent to one; and tests
// against a plain model.
#![tactic(auto)]

pub mod entry;
pub mod index;
pub mod lent;
mod model;
