// A library of files: it holds them as tokens with an index of their fingerprints, and reports the passages that they share.
#![tactic(auto)]

mod adding;
mod filed;
mod holding;
mod lengths;
pub mod library;
pub mod plan;
mod removing;
mod reporting;
pub mod running;
mod store;
