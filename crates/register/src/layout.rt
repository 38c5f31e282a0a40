// Where the numbers of a register stand, as the table in the reader's file has it: all places follow from the three counts.
ghost use Rattle.std.specs.Prelude.{◌≡◌};
ghost use Rattle.register.specs.Layout.{counts_of, within_limits, programs_from, starts_from, marks_from, label_count, grades_from, whole_length};

use crate::fields::field;
use crate::tables::{MOST_CERTIFICATES, MOST_SEATS, MOST_SHEETS};

// The bytes of the three counts; the sizes of the sheets come next.
pub const HEAD: usize = 6;

// The counts that a register begins with.
#[derive(Clone, Copy)]
pub struct Layout {
    pub sheets: u16,
    pub certificates: u16,
    pub seats: u16,
}

impl From<&[u8; HEAD]> for Layout {
    ghost from_gives = { λ head layout. layout ≡ counts_of head.now };

    fn from(head: &[u8; HEAD]) -> Layout {
        Layout {
            sheets: u16::from_be_bytes(field(head, 0)),
            certificates: u16::from_be_bytes(field(head, 2)),
            seats: u16::from_be_bytes(field(head, 4)),
        }
    }
}

impl Layout {
    // Whether there are 1 to 64 sheets, 1 to 32 certificates and 1 to 32 seats.
    pub fn is_within_limits(self) -> bool
        ensures { result ≡ within_limits self }
    {
        (1..=MOST_SHEETS).contains(&usize::from(self.sheets))
            && (1..=MOST_CERTIFICATES).contains(&usize::from(self.certificates))
            && (1..=MOST_SEATS).contains(&usize::from(self.seats))
    }

    pub fn programs_from(self) -> usize
        ensures { result ≡ programs_from self }
    {
        HEAD + 4 * usize::from(self.sheets)
    }

    pub fn starts_from(self) -> usize
        ensures { result ≡ starts_from self }
    {
        self.programs_from() + 2 * usize::from(self.certificates)
    }

    pub fn marks_from(self) -> usize
        ensures { result ≡ marks_from self }
    {
        self.starts_from() + 2 * usize::from(self.seats)
    }

    // One for each sheet, then the reading and the writing label of each certificate.
    fn label_count(self) -> usize
        ensures { result ≡ label_count self }
    {
        usize::from(self.sheets) + 2 * usize::from(self.certificates)
    }

    pub fn grades_from(self) -> usize
        ensures { result ≡ grades_from self }
    {
        self.marks_from() + 8 * self.label_count()
    }

    pub fn whole_length(self) -> usize
        ensures { result ≡ whole_length self }
    {
        self.grades_from() + 8 * self.label_count()
    }
}
