// What any crate may use: a range, the smaller of two, the lower bits of a size.
#![tactic(auto)]

pub mod ranges;
pub mod widths;
