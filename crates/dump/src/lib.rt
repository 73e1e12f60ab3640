// What each line of a dump gives in the report.
#![tactic(auto)]

mod line;
mod report;
pub mod say;
pub mod sizes;
