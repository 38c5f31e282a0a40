// The page store: sheets on whole pages of one memory, in the order of a list of page numbers.
#![tactic(auto)]

pub mod pages;
