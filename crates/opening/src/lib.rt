// What an opening tests, and what an accepted one keeps.
#![tactic(auto)]

pub mod admission;
mod checks;
mod making;
pub mod opening;
