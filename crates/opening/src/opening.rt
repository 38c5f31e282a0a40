// What an accepted opening keeps of the register, and the look-up of a seat and of a sheet by number.
ghost use Rattle.std.specs.Prelude.{◌≡◌, [], ◌∷◌, length, nat_le, slice_index_or};
ghost use Rattle.refusals.specs.Refusals.{checked, on};

use arrayvec::ArrayVec;
use model::seat::Seat;
use model::sheet::Sheet;
use refusals::refusal::Refusal;
use register::tables::{MOST_SEATS, MOST_SHEETS};

// The floor, the record of each sheet, and the record of each seat. Calls change the seats alone.
#[derive(Drop)]
pub struct Opening {
    pub floor: u64,
    pub sheets: ArrayVec<Sheet, MOST_SHEETS>,
    pub seats: ArrayVec<Seat, MOST_SEATS>,
}

impl Opening {
    ghost use Rattle.opening.specs.Rows.{seat_of, sheet_of, with_seat};

    // The record of the seat of this number.
    pub fn seat(&self, seat: u16) -> Result<Seat, Refusal>
        ensures { result ≡ seat_of self.now seat }
    {
        row(self.seats.as_slice(), seat, Refusal::NoSeat)
    }

    // The label and the certificate of the sheet of this number.
    pub fn sheet(&self, sheet: u16) -> Result<Sheet, Refusal>
        ensures { result ≡ sheet_of self.now sheet }
    {
        row(self.sheets.as_slice(), sheet, Refusal::NoSheet)
    }

    // Puts another record in the place of seat i's; nothing changes where there is no such seat.
    pub fn put(&mut self, i: u16, seat: Seat)
        ensures { self.new ≡ with_seat self.old i seat }
    {
        if let Some(place) = self.seats.get_mut(usize::from(i)) {
            *place = seat;
        }
    }
}

// The row of a number, refused where there is none.
fn row<T: Copy>(rows: &[T], i: u16, refusal: Refusal) -> Result<T, Refusal>
    ensures { (blank : T) → result ≡ checked (on (nat_le (length rows.now) i) refusal ∷ []) (slice_index_or rows.now i blank) }
{
    rows.get(usize::from(i)).copied().ok_or(refusal)
}
