// Piles of layers that are chosen when the program runs: how they are written, and what they leave of a file.
#![tactic(auto)]

pub mod lines;
pub mod pile;
pub mod words;
