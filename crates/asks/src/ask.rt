// A line of the day run, read as one call of a seat.
ghost use Rattle.std.specs.Prelude.{◌≡◌};
ghost use Rattle.asks.specs.Lines as lines;

use crate::fields::{field, last_field, rest_or};
use crate::stretch::Stretch;

// What a line asks. The bytes of a write are a stretch of the line itself, or the blank text.
#[derive(Clone, Copy, Debug)]
pub enum Ask<'a> {
    Read(Stretch),
    Write {
        seat: u16,
        sheet: u16,
        place: u32,
        bytes: &'a [u8],
    },
    Run(Stretch),
    Hand {
        seat: u16,
        sheet: u16,
        slip: u64,
    },
    Tell {
        seat: u16,
    },
}

// A line that says no call.
#[derive(Clone, Copy, Debug)]
pub struct Malformed;

const MOST_BYTES: usize = 200;

// The highest number of a seat or a sheet. A constant takes no call, so it is cast.
pub(crate) const MOST_NUMBER: u64 = u16::MAX as u64;

pub(crate) const MOST_PLACE: u64 = u32::MAX as u64;

const MOST_SLIP: u64 = u64::MAX;

const BLANK: &[u8] = b"----";

// Seat, sheet and place of a write, and its bytes. Here and below, a rule of the project wants each field by a `let .. else`, and
// in every `else` the one fault (docs/DECISIONS.md, Named forms).
fn write(text: &[u8]) -> Result<Ask<'_>, Malformed>
    ensures { lines.asked result ≡ lines.writing text.now }
{
    let Some((seat, text)) = field(text, MOST_NUMBER) else {
        return Err(Malformed);
    };
    let Some((sheet, text)) = field(text, MOST_NUMBER) else {
        return Err(Malformed);
    };
    let Some((place, text)) = field(text, MOST_PLACE) else {
        return Err(Malformed);
    };
    let Some(bytes) = rest_or(text, BLANK) else {
        return Err(Malformed);
    };
    // Here and below a cast keeps its number, which the field tested against a limit.
    Ok(Ask::Write {
        seat: seat as u16,
        sheet: sheet as u16,
        place: place as u32,
        bytes,
    })
}

// Seat, sheet and slip of a hand over, up to the end of the line.
fn hand(text: &[u8]) -> Result<Ask<'_>, Malformed>
    ensures { lines.asked result ≡ lines.handing text.now }
{
    let Some((seat, text)) = field(text, MOST_NUMBER) else {
        return Err(Malformed);
    };
    let Some((sheet, text)) = field(text, MOST_NUMBER) else {
        return Err(Malformed);
    };
    let Some(slip) = last_field(text, MOST_SLIP) else {
        return Err(Malformed);
    };
    Ok(Ask::Hand {
        seat: seat as u16,
        sheet: sheet as u16,
        slip,
    })
}

// The seat that is told, up to the end of the line.
fn tell(text: &[u8]) -> Result<Ask<'_>, Malformed>
    ensures { lines.asked result ≡ lines.telling text.now }
{
    let Some(seat) = last_field(text, MOST_NUMBER) else {
        return Err(Malformed);
    };
    Ok(Ask::Tell { seat: seat as u16 })
}

// The call that a line says. Each line that breaks a rule is malformed, and so is one of over 200 bytes.
pub fn parse(line: &[u8]) -> Result<Ask<'_>, Malformed>
    ensures { lines.asked result ≡ lines.parsed line.now }
{
    if line.len() > MOST_BYTES {
        return Err(Malformed);
    }
    let Some((letter, text)) = line.split_first() else {
        return Err(Malformed);
    };
    match char::from(*letter) {
        'r' => Ok(Ask::Read(Stretch::parse(text)?)),
        'w' => write(text),
        'x' => Ok(Ask::Run(Stretch::parse(text)?)),
        'h' => hand(text),
        't' => tell(text),
        _ => Err(Malformed),
    }
}
