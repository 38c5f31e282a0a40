// What an accepted opening keeps of a sheet.
use register::certificate::Certificate;
use register::label::Label;

// A sheet's mark and grade, and its certificate where it is a certified program.
#[derive(Clone, Copy, Default)]
pub struct Sheet {
    pub label: Label,
    pub certificate: Option<Certificate>,
}
