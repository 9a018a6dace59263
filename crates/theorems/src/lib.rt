// What follows from the rules: functions that compute what they mean, demand 3, and what the calls promise a reader. It has no code.

#![tactic(auto)]

pub mod model;
pub mod order;
pub mod promises;
