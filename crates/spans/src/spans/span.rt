// One sheet's span of a memory.
ghost use Rattle.std.specs.Prelude.{◌≡◌, ◌+◌, [], ◌∷◌, nat_lt};
ghost use Rattle.refusals.specs.Refusals.{checked, on};
ghost use Rattle.refusals.specs.declared.refusal.Refusal.TheVariants.{PastEnd};

use refusals::refusal::Refusal;

// A sheet has the `size` bytes of the memory from `start` on.
#[derive(Clone, Copy, Default)]
pub struct Span {
    pub start: u32,
    pub size: u32,
}

impl Span {
    // Where `len` bytes from `place` of the sheet start.
    pub fn reach(self, place: u32, len: usize) -> Result<usize, Refusal>
        ensures { result ≡ checked (on (nat_lt self.size (place + len)) PastEnd ∷ []) (self.start + place) }
    {
        // The conversions are no plainer otherwise: `usize` has no `From<u32>`, and `try_from` an error that could not come.
        if place > self.size || len > (self.size - place) as usize {
            return Err(Refusal::PastEnd);
        }
        Ok(self.start as usize + place as usize)
    }
}
