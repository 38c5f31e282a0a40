// The day run: a vault is opened, and the lines of an input are answered, as one function from bytes to text.
#![tactic(auto)]

mod answering;
pub mod day;
pub mod example;
