// A frame that arrives in pieces of any size.
#![tactic(auto)]

pub mod packed;
pub mod state;
