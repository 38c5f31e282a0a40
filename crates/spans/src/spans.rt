// Where the sheets of a store stand in a memory that is cut into units of `UNIT` bytes: one after the other, in number
// order, each from the start of a unit on. A page store's unit is one page; a slab's is one byte, so its sheets stand end to end.
ghost use Rattle.std.specs.Prelude.{◌≡◌, ◌≤◌, true, length, take, sum_by};
ghost use Rattle.spans.specs.Limits.{small};
ghost use Rattle.spans.specs.Rooms.{room};
ghost use Rattle.spans.specs.Spans.{placed, sizes_in};

use self::span::Span;

mod calls;
mod making;
mod span;

// The limits of a store: its sheets, and the bytes of one.
const MOST_SHEETS: usize = 64;

const MOST_BYTES: u32 = 4096;

// An array with a count and no vector of the library's, which cannot be copied; and no Model, which would hide from callers that the
// sheets are few and none of them too large.
#[derive(Clone, Copy)]
pub struct Spans<const UNIT: u16> {
    // How many sheets there are; their spans stand at the front of the rows, each start beside its size, so that no call sums sizes.
    count: u16,
    rows: [Span; MOST_SHEETS],
    // How many bytes of the memory they take.
    end: u32,
    ghost table: { length rows ≡ 64 },
    ghost few: { count ≤ 64 },
    ghost limit: { small (sizes_in (take count rows)) ≡ true },
    ghost packed: { placed (room UNIT) 0 (take count rows) ≡ true },
    ghost taken: { end ≡ sum_by (room UNIT) (sizes_in (take count rows)) },
}
