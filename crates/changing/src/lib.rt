// The rows of a stream in an image: where they stand, and the image with them or without them.

#![tactic(auto)]

pub mod adding;
pub mod closing;
pub mod finding;
pub mod reader;
