// What a read and a run name: a stretch of a sheet.
ghost use Rattle.std.specs.Prelude.{◌≤◌};

use crate::ask::{MOST_NUMBER, MOST_PLACE, Malformed};
use crate::fields::{field, last_field};

// The largest buffer of a read or a run.
pub const MOST_SIZE: usize = 64;

// The bytes of a sheet that fill a buffer, the seat that asks for them, and the buffer's size.
#[derive(Clone, Copy, Debug)]
pub struct Stretch {
    pub seat: u16,
    pub sheet: u16,
    pub place: u32,
    pub size: u8,
    ghost fits: { size ≤ 64 },
}

impl Stretch {
    ghost use Rattle.std.specs.Prelude.{◌≡◌};
    ghost use Rattle.std.specs.Option.{option_map};
    ghost use Rattle.std.specs.Result.{result_ok};
    ghost use Rattle.asks.specs.Lines as lines;

    // Seat, sheet, place and buffer size, up to the end of the line. A rule of the project wants each field by a `let .. else`, and in
    // every `else` the one fault (docs/DECISIONS.md, Named forms).
    pub(crate) fn parse(text: &[u8]) -> Result<Stretch, Malformed>
        ensures { option_map lines.parts (result_ok result) ≡ lines.stretch text.now }
    {
        let Some((seat, text)) = field(text, MOST_NUMBER) else {
            return Err(Malformed);
        };
        let Some((sheet, text)) = field(text, MOST_NUMBER) else {
            return Err(Malformed);
        };
        let Some((place, text)) = field(text, MOST_PLACE) else {
            return Err(Malformed);
        };
        let Some(size) = last_field(text, MOST_SIZE as u64) else {
            return Err(Malformed);
        };
        // A cast keeps its number, which the field tested against a limit.
        Ok(Stretch {
            seat: seat as u16,
            sheet: sheet as u16,
            place: place as u32,
            size: size as u8,
        })
    }
}
