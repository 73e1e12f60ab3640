// What each line of the factory's data gives in the dump.
#![tactic(auto)]

mod line;
pub mod say;
pub mod sizes;
mod written;
