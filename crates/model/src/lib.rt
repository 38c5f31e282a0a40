// The model of the vault: its policy and state, what each call does to them, and the law of two runs.
// There is no code here but the two types that the policy and the state are made of.
#![tactic(auto)]

pub mod seat;
pub mod sheet;
