// The example vault: five sheets, three certified programs, two seats; marks are compartments, grades a ladder of six.
//
//   sheet  size  mark  grade  certificate: reading/writing mark, reading/writing grade
//   0      8     1     3
//   1      8     0     3
//   2      4     1     6      1/1, 3/3
//   3      4     0     6      1/0, 3/5
//   4      4     0     6      0/0, 3/3
//
// Seat 0 starts with program 2, seat 1 with program 4. The floor is 5, and the store a slab of zeros.
ghost use Rattle.std.specs.Prelude.{◌≡◌, IfOk, IsTrue, string_bytes};
ghost use Rattle.model.specs.Opening.{same_sizes};
ghost use Rattle.dayrun.specs.Example.{register as example_register, book, text_from, example_text};

use crate::day;
use orders::compartments::Compartments;
use orders::ladder::Ladder;
use std::alloc::{AllocError, Global};
use std::fmt;
use stores::slab::Slab;
use stores::store::Store;
use vault::vault::Vault;

// How many grades there are.
pub const RUNGS: u8 = 6;

// The floor that its opening is given.
pub const FLOOR: u64 = 5;

// The sizes of the sheets.
pub const SIZES: [u32; 5] = [8, 8, 4, 4, 4];

const MEMORY: usize = 28;

// The example's register. All numbers are unsigned, the highest byte first.
const REGISTER: &[u8; 212] = b"\
    \x00\x05\x00\x03\x00\x02\
    \x00\x00\x00\x08\x00\x00\x00\x08\x00\x00\x00\x04\x00\x00\x00\x04\x00\x00\x00\x04\
    \x00\x02\x00\x03\x00\x04\
    \x00\x02\x00\x04\
    \x00\x00\x00\x00\x00\x00\x00\x01\x00\x00\x00\x00\x00\x00\x00\x00\x00\x00\x00\x00\x00\x00\x00\x01\
    \x00\x00\x00\x00\x00\x00\x00\x00\x00\x00\x00\x00\x00\x00\x00\x00\
    \x00\x00\x00\x00\x00\x00\x00\x01\x00\x00\x00\x00\x00\x00\x00\x01\
    \x00\x00\x00\x00\x00\x00\x00\x01\x00\x00\x00\x00\x00\x00\x00\x00\
    \x00\x00\x00\x00\x00\x00\x00\x00\x00\x00\x00\x00\x00\x00\x00\x00\
    \x00\x00\x00\x00\x00\x00\x00\x03\x00\x00\x00\x00\x00\x00\x00\x03\x00\x00\x00\x00\x00\x00\x00\x06\
    \x00\x00\x00\x00\x00\x00\x00\x06\x00\x00\x00\x00\x00\x00\x00\x06\
    \x00\x00\x00\x00\x00\x00\x00\x03\x00\x00\x00\x00\x00\x00\x00\x03\
    \x00\x00\x00\x00\x00\x00\x00\x03\x00\x00\x00\x00\x00\x00\x00\x05\
    \x00\x00\x00\x00\x00\x00\x00\x03\x00\x00\x00\x00\x00\x00\x00\x03";

// The example's register.
pub fn register() -> &'static [u8]
    ensures { result.now ≡ example_register }
{
    REGISTER
}

// The text of a day at the example vault over this store, whatever bytes its sheets have. Of a store that has other
// sheets than the register nothing is said. Only want of memory fails.
pub fn text_over<S: Store + Drop>(
    alloc: Global,
    store: S,
    input: &[u8],
) -> Result<String, AllocError>
    ensures { IsTrue (same_sizes (S.sheets store) book.entries) → IfOk result (λ out. string_bytes out ≡ text_from (S.sheets store) input.now) }
{
    let vault = Vault::new(Compartments, Ladder::new(RUNGS), store);
    day::text(alloc, vault, register(), FLOOR, input)
}

// The text of a day at the example vault. Only want of memory fails; where it comes while the text is made, it is told as the error
// of formatting.
pub fn text(alloc: Global, input: &[u8]) -> anyhow::Result<String>
    ensures { IfOk result (λ out. string_bytes out ≡ example_text input.now) }
{
    let memory = vec![in alloc; 0; MEMORY]?;
    Ok(text_over(alloc, Slab::new(&SIZES, memory), input).map_err(fmt::Error::from)?)
}
