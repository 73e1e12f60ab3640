// Texts: digits, hex and fields read; words, numbers and hex written into a buffer or on a page.
#![tactic(auto)]

pub mod hex;
pub mod number;
pub mod page;
pub mod record;
pub mod write;
