// Tests of the crate `clike`.
#![tactic(auto)]

#[cfg(test)]
mod cuts;
#[cfg(test)]
mod lists;
#[cfg(test)]
mod words;
