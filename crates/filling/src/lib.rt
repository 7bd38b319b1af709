// How a library reads a source into its token list, and writes fingerprints into its index: functions over lent slices.
#![tactic(auto)]

pub mod entries;
pub mod reading;
pub mod writing;
