// Layers over any source of tokens, each a source again.
// What they have alike, a list below and a depth, is a line in each; a trait for it would be no shorter.
#![tactic(auto)]

pub mod case;
pub mod dropping;
pub mod names;
pub mod onward;
