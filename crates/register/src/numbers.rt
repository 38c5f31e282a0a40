// Whether the numbers of a register are sound: its sizes, its program numbers and its starting numbers.
ghost use Rattle.std.specs.Prelude.{◌≡◌};
ghost use Rattle.std.specs.List.{list_all};
ghost use Rattle.register.specs.Numbers.{size_fits, programs_ascend, programs_climb, is_program, numbers_sound};
ghost use Rattle.register.specs.Tables.{book_of};

use crate::certificate::{Certificate, find};
use crate::entry::Entry;
use crate::tables::Register;

// How many bytes a sheet may have. A store has a limit of its own, which is the same number.
const MOST_BYTES: u32 = 4096;

// Whether each size is within its limit.
fn sizes_fit(entries: &[Entry]) -> bool
    ensures { result ≡ list_all size_fits entries.now }
{
    entries.iter().all(|e| e.size <= MOST_BYTES)
}

// Whether each program number is below the next.
fn programs_ascend(certificates: &[Certificate]) -> bool
    ensures { result ≡ programs_ascend certificates.now }
{
    certificates
        .iter()
        .zip(certificates.iter().skip(1))
        .all(|(c, next)| c.program < next.program)
}

// Whether each program number is a sheet's, and below the next: where they ascend, the last is the highest.
fn programs_climb(certificates: &[Certificate], sheets: usize) -> bool
    ensures { result ≡ programs_climb sheets certificates.now }
{
    match certificates {
        [] => true,
        [.., last] => usize::from(last.program) < sheets && programs_ascend(certificates),
    }
}

// Whether each starting number is a program's.
fn starts_are_programs(starts: &[u16], certificates: &[Certificate]) -> bool
    ensures { result ≡ list_all (is_program certificates.now) starts.now }
{
    starts.iter().all(|p| find(certificates, *p).is_some())
}

// Whether each size is within its limit, the program numbers climb, and each seat starts with a program.
pub fn are_sound(register: &Register) -> bool
    ensures { result ≡ numbers_sound (book_of register.now) }
{
    let entries = register.entries();
    let certificates = register.certificates();
    sizes_fit(entries)
        && programs_climb(certificates, entries.len())
        && starts_are_programs(register.starts(), certificates)
}
