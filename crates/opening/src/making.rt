// The tables that an accepted opening makes of what the register says.
ghost use Rattle.std.specs.Prelude.{◌≡◌};
ghost use Rattle.register.specs.Tables.{book_of};
ghost use Rattle.model.specs.Opening.{first_seats, first_sheets, seat_for};

use arrayvec::ArrayVec;
use model::seat::Seat;
use model::sheet::Sheet;
use register::certificate::{Certificate, find};
use register::tables::{MOST_SEATS, MOST_SHEETS, Register};

// Each sheet under its label, with its certificate where it is a program.
pub fn sheets_of(register: &Register) -> ArrayVec<Sheet, MOST_SHEETS>
    ensures { result.items ≡ first_sheets (book_of register.now) }
{
    let mut sheets = ArrayVec::new();
    // A rule of the project wants a `for` here and below, with the number and without (docs/DECISIONS.md, Named forms).
    for (k, e) in register.entries().iter().enumerate() {
        sheets.push(Sheet {
            label: e.label,
            // `as`, since `try_from` has an error that could not come: there are at most 64 entries.
            certificate: find(register.certificates(), k as u16),
        });
    }
    sheets
}

// A seat under the certificate of its starting program, running it, with slip 0.
fn seat_for(certificates: &[Certificate], program: u16) -> Seat
    ensures { result ≡ seat_for certificates.now program }
{
    Seat {
        certificate: find(certificates, program).unwrap_or_default(),
        program,
        slip: 0,
    }
}

// Each seat as it starts.
pub fn seats_of(register: &Register) -> ArrayVec<Seat, MOST_SEATS>
    ensures { result.items ≡ first_seats (book_of register.now) }
{
    let mut seats = ArrayVec::new();
    for program in register.starts() {
        seats.push(seat_for(register.certificates(), *program));
    }
    seats
}
