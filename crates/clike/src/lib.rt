// C-like files: cutting them into lexemes, and the source of their tokens.
#![tactic(auto)]

pub mod cutting;
pub mod keyword;
pub mod laws;
pub mod lexeme;
pub mod reading;
pub mod scan;
pub mod state;
