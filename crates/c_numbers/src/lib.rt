// Tables and answers in plain numbers, as other languages have them.
#![tactic(auto)]

pub mod answers;
pub mod lent;
