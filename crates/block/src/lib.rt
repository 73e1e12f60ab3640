// Numbers in a lent block of bytes, for C.
#![tactic(auto)]

pub mod put;
