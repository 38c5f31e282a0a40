// Where the sheets of a store stand in a memory that is cut into units, and the limits of a store.
#![tactic(auto)]

pub mod spans;
