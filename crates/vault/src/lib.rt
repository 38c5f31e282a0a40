// The vault: sheets under marks and grades, and the calls of its seats.
#![tactic(auto)]

pub mod vault;
