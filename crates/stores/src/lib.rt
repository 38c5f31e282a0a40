// Stores of sheets: the trait that says what a store means, and the slab.
#![tactic(auto)]

pub mod slab;
pub mod store;
