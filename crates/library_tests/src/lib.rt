// Tests of the library.
#![tactic(auto)]

#[cfg(test)]
mod common;
#[cfg(test)]
mod holding;
pub mod known;
#[cfg(test)]
mod passages;
#[cfg(test)]
mod plans;
#[cfg(test)]
mod refusals;
#[cfg(test)]
mod running;
