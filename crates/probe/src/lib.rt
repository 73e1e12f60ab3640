// For the tests alone, and no part of what is shipped: the single word, the row and the field, for C.
#![tactic(auto)]

pub mod exports;
mod said;
