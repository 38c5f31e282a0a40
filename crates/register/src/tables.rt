// The register as it is kept: three tables, each with the count of its rows that are in use.
ghost use Rattle.std.specs.Prelude.{◌≤◌};

use crate::certificate::Certificate;
use crate::entry::Entry;

// How many sheets, certificates and seats a register may have. A store has a limit of sheets of its own, which is the same number.
pub const MOST_SHEETS: usize = 64;

pub const MOST_CERTIFICATES: usize = 32;

pub const MOST_SEATS: usize = 32;

// What a register says: an entry for each sheet, the certificates, and the program that each seat starts with. Arrays with counts
// and no vectors of the library's, which cannot be copied.
#[derive(Clone, Copy)]
pub struct Register {
    pub(crate) entry_count: u16,
    pub(crate) entries: [Entry; MOST_SHEETS],
    pub(crate) certificate_count: u16,
    pub(crate) certificates: [Certificate; MOST_CERTIFICATES],
    pub(crate) start_count: u16,
    pub(crate) starts: [u16; MOST_SEATS],
    ghost entries_fit: { entry_count ≤ 64 },
    ghost certificates_fit: { certificate_count ≤ 32 },
    ghost starts_fit: { start_count ≤ 32 },
}

impl Register {
    ghost use Rattle.std.specs.Prelude.{◌≡◌};
    ghost use Rattle.register.specs.Tables.{book_of};

    // What is said of each sheet, in the order of the sheets' numbers.
    pub fn entries(&self) -> &[Entry]
        ensures { result.now ≡ (book_of self.now).entries }
    {
        &self.entries[..usize::from(self.entry_count)]
    }

    // The certificates, in the order of their program numbers where the numbers are sound.
    pub fn certificates(&self) -> &[Certificate]
        ensures { result.now ≡ (book_of self.now).certificates }
    {
        &self.certificates[..usize::from(self.certificate_count)]
    }

    // The program that each seat starts with.
    pub fn starts(&self) -> &[u16]
        ensures { result.now ≡ (book_of self.now).starts }
    {
        &self.starts[..usize::from(self.start_count)]
    }
}
