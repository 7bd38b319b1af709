// The page that shows what two files share.
#![tactic(auto)]

pub mod answered;
pub mod comparing;
pub mod whole;
pub mod worked;
