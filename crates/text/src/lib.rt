// Bytes, words and numbers of a line: read at a place, put into a vector or a lent list.
#![tactic(auto)]

pub mod copy;
pub mod lent;
pub mod numbers;
pub mod put;
pub mod scan;
