// What is made of a damaged image: the book of the rows that are kept, and the report.

#![tactic(auto)]

pub mod salvaging;
