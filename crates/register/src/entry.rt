// Entries: what the register says of a sheet.
use crate::label::Label;

// The size of a sheet in bytes, and its label.
#[derive(Clone, Copy, Default)]
pub struct Entry {
    pub size: u32,
    pub label: Label,
}
