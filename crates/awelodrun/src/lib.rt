// The library for C and Rust: every public function, on plain numbers and lent lists.
#![tactic(auto)]

pub mod edits;
pub mod files;
mod given;
pub mod tables;
pub mod text;
