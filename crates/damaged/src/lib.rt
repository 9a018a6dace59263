// The rows of a damaged image: those that can be cut out of it, and whether each is kept beside those kept.

#![tactic(auto)]

pub mod cutting;
pub mod judging;
