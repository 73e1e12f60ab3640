// Square code frames.
#![tactic(auto)]

pub mod decode;
pub mod encode;
pub mod read;
pub mod row;
mod words;
