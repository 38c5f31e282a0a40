// Certificates: the sheets that are programs, and what each may read and write.
ghost use Rattle.std.specs.Prelude.{◌≡◌};
ghost use Rattle.register.specs.Certificates.{certificate_in};

use crate::label::Label;

// The number of a program's sheet, with the labels that the program reads and writes at.
#[derive(Clone, Copy, Default)]
pub struct Certificate {
    pub program: u16,
    pub reading: Label,
    pub writing: Label,
}

// The first certificate of a program, where it has one.
pub fn find(certificates: &[Certificate], program: u16) -> Option<Certificate>
    ensures { result ≡ certificate_in certificates.now program }
{
    certificates.iter().copied().find(|c| c.program == program)
}
