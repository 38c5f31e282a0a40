// Orders of classes: what 'at or below' means, and two orders, compartments and ladders; and an order that is borrowed.
#![tactic(auto)]

pub mod borrowed;
pub mod compartments;
pub mod ladder;
pub mod order;
