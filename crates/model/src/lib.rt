// What a library is about: the records that it keeps and answers, and the definitions of what is held and of what each call answers.
#![tactic(auto)]

pub mod answers;
pub mod calls;
pub mod fingerprint;
pub mod passage;
pub mod refusal;
pub mod table;
