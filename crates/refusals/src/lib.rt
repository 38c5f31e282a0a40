// Every refusal of the vault, its openings and its stores, with the number that it is known by outside.
#![tactic(auto)]

pub mod refusal;
