// What C calls.
#![tactic(auto)]

pub mod exports;
mod figures;
