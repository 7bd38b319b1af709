// Tokens, faults, the trait of token sources, and sources with no layer: prose, a sum of two, a list in memory.
#![tactic(auto)]

pub mod bytes;
pub mod collected;
pub mod collecting;
pub mod prose;
pub mod source;
mod sum;
pub mod token;
