// What the vault keeps of a seat.
use register::certificate::Certificate;

// A seat's record: the certificate that it acts under, the program that it runs, and the slip that it was handed.
#[derive(Clone, Copy, Default)]
pub struct Seat {
    pub certificate: Certificate,
    pub program: u16,
    pub slip: u64,
}
