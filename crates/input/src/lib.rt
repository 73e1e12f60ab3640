// The input, line by line, for every program over texts: standard input, or any other reader.
#![tactic(auto)]

pub mod program;
pub mod reading;

pub use reading::{Input, PIECE, Step, advance, begin};
