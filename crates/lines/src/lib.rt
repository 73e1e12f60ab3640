// Lines in pieces of any size, for every program over texts: each acts on what has happened.
#![tactic(auto)]

pub mod program;
pub mod say;
pub mod state;
