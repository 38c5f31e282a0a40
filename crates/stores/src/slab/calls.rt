// The calls of a slab.
ghost use Rattle.std.specs.Prelude.{◌≡◌, length, Err, MatchResult};
ghost use Rattle.spans.specs.Rooms.{exact};
ghost use Rattle.stores.specs.Reaches.{Reached};
ghost use Rattle.stores.specs.Sheets.{write_answer, written};
ghost use Rattle.stores.specs.Slabs.{memory_after, slab_memory, slab_sheets, slab_sizes};

use crate::slab::Slab;
use crate::store::Store;
use refusals::refusal::Refusal;

impl Slab {
    // Where in the memory `len` bytes from `place` of a sheet start.
    fn reach(&self, sheet: u16, place: u32, len: usize) -> Result<usize, Refusal>
        ensures { MatchResult result (λ at. Reached exact (slab_sizes self.now) (slab_memory self.now) sheet place len at) (λ e. write_answer (slab_sheets self.now) sheet place len ≡ Err e) }
    {
        self.sheets.reach(sheet, place, len)
    }
}

impl Store for Slab {
    ghost sheets = { slab_sheets };

    fn count(&self) -> u16 {
        self.sheets.count()
    }

    fn size(&self, sheet: u16) -> u32 {
        self.sheets.size(sheet)
    }

    fn read(&self, sheet: u16, place: u32, buffer: &mut [u8]) -> Result<(), Refusal> {
        let at = self.reach(sheet, place, buffer.len())?;
        buffer.copy_from_slice(&self.memory[at..at + buffer.len()]);
        Ok(())
    }

    fn write(&mut self, sheet: u16, place: u32, bytes: &[u8]) -> Result<(), Refusal>
        ensures result { result ≡ write_answer (slab_sheets self.old) sheet place (length bytes.now) }
        ensures after { slab_sheets self.new ≡ written (slab_sheets self.old) sheet place bytes.now }
        ensures memory { slab_memory self.new ≡ memory_after self.old sheet place bytes.now }
    {
        let at = self.reach(sheet, place, bytes.len())?;
        self.memory[at..at + bytes.len()].copy_from_slice(bytes);
        Ok(())
    }
}
