// The reader of a register. All numbers are unsigned, the highest byte first; n, q and m are the three counts:
//
//   from                  what                                                       bytes
//   0                     n, the count of sheets, 1 to 64                            2
//   2                     q, the count of certificates, 1 to 32                      2
//   4                     m, the count of seats, 1 to 32                             2
//   6                     the size of each sheet                                     4 n
//   6 + 4n                the program number of each certificate                     2 q
//   6 + 4n + 2q           the starting number of each seat                           2 m
//   6 + 4n + 2q + 2m      the marks: one of each sheet, then the reading and         8 (n + 2q)
//                         the writing mark of each certificate
//   6 + 12n + 18q + 2m    the grades, in the same places                             8 (n + 2q)
//   6 + 20n + 34q + 2m    the end
ghost use Rattle.std.specs.Prelude.{◌≡◌};
ghost use Rattle.register.specs.Layout.{reading, listed};

use crate::form::Form;
use crate::layout::Layout;
use crate::tables::Register;
use refusals::refusal::Refusal;

// What the bytes of a register say, if they have its counts and its length.
pub fn read(bytes: &[u8]) -> Result<Register, Refusal>
    ensures { listed result ≡ reading bytes.now }
{
    let head = bytes.first_chunk().ok_or(Refusal::RegisterLength)?;
    let layout = Layout::from(head);
    Refusal::Counts.unless(layout.is_within_limits())?;
    Refusal::RegisterLength.unless(bytes.len() == layout.whole_length())?;
    let form = Form { layout, bytes };
    Ok(Register {
        entry_count: layout.sheets,
        entries: form.entries(),
        certificate_count: layout.certificates,
        certificates: form.certificates(),
        start_count: layout.seats,
        starts: form.starts(),
    })
}
