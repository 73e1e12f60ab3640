// Squares of bits in bytes: their size, their bytes copied, where two differ, and whether one is all ones.
#![tactic(auto)]

pub mod corner;
pub mod differences;
pub mod erased;
pub mod sizes;
