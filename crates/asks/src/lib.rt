// The lines of the day run: what a line of input asks of the vault, and what is printed of an answer.
#![tactic(auto)]

pub mod answer;
pub mod ask;
mod cut;
mod fields;
pub mod lines;
mod number;
pub mod stretch;

pub use number::numbers_stand;
