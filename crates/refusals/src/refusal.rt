// One enum for all refusals, each with the number by which it is known outside. A refusal changes no sheet, no seat and no buffer.
ghost use Rattle.std.specs.Prelude.{◌≡◌, not, [], ◌∷◌, Some, decimal};
ghost use Rattle.refusals.specs.Refusals.{checked, number_of, on};

use std::fmt;

#[derive(Clone, Copy, PartialEq, Eq, Debug)]
pub enum Refusal {
    // A seat's call, and the vault is not open.
    Closed = 1,
    // The register has under six bytes, or not its exact length.
    RegisterLength = 2,
    // A count of sheets, certificates or seats outside its limits.
    Counts = 3,
    // A size over 4,096, a program number that is no sheet or not above the one before, or a starting number that is no program.
    Numbers = 4,
    // A mark, a grade or the floor is no class of its order.
    NoClass = 5,
    // A certificate whose writing mark is not at or below its reading mark, or whose reading grade is not at or below its writing grade.
    Range = 6,
    // A certificate ranged in marks whose writing grade is not at or above the floor.
    UnderFloor = 7,
    // The store's count of sheets, or a size, differs from the register.
    OtherStore = 8,
    // Opening a vault that is open.
    AlreadyOpen = 9,
    // The vault has no seat of this number.
    NoSeat = 10,
    // There is no sheet of this number.
    NoSheet = 11,
    // A mark rule of the call fails.
    MarkRule = 12,
    // The grade rule of the call fails.
    GradeRule = 13,
    // A write to a certified program.
    Certified = 14,
    // The bytes reach past the sheet's end.
    PastEnd = 15,
    // A hand over to a sheet that has no certificate.
    NotCertified = 16,
    // A store's check: too many sheets, one that is too large, too many pages, more or fewer pages than needed, or a page twice.
    StoreLimit = 17,
    // A store's check: a sheet or a page reaches past the memory.
    PastMemory = 18,
}

impl Refusal {
    // The number by which a refusal is known outside.
    pub fn number(self) -> u8
        ensures { result ≡ number_of self }
    {
        u8::from(self)
    }

    // Refuses unless the condition holds.
    pub fn unless(self, holds: bool) -> Result<(), Refusal>
        ensures { result ≡ checked (on (not holds) self ∷ []) tt }
    {
        if holds { Ok(()) } else { Err(self) }
    }
}

impl From<Refusal> for u8 {
    ghost from_gives = { λ refusal number. number ≡ number_of refusal };

    fn from(refusal: Refusal) -> u8 {
        // The discriminant, which a cast alone gives.
        refusal as u8
    }
}

// A refusal is printed as its number.
impl fmt::Display for Refusal {
    ghost output = { λ refusal. Some (decimal (number_of refusal)) };

    fn fmt<W: fmt::Write>(&self, f: &mut fmt::Formatter<W>) -> fmt::Result {
        self.number().fmt(f)
    }
}
