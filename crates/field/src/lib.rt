// The tables of the field of 256 elements and of the small code, and the look-up in each.
#![tactic(auto)]

pub mod halves;
pub mod logs;
pub mod marks;
