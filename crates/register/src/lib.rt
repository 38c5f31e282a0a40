// The register of a vault: its binary form, the reader of that form, and what the register says of sheets, certificates and seats.
#![tactic(auto)]

pub mod certificate;
pub mod entry;
mod fields;
mod form;
pub mod label;
mod layout;
pub mod numbers;
pub mod reader;
pub mod tables;
