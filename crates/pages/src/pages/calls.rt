// The calls of a page store.
ghost use Rattle.std.specs.Prelude.{◌≡◌, length, Err, MatchResult};
ghost use Rattle.stores.specs.Reaches.{Reached};
ghost use Rattle.spans.specs.Rooms.{room};
ghost use Rattle.stores.specs.Sheets.{write_answer, written};
ghost use Rattle.pages.specs.PageStores.{Rewritten, listed_bytes, page_sheets, page_sizes};

use crate::pages::Pages;
use refusals::refusal::Refusal;
use stores::store::Store;

impl Pages {
    // Where among the listed bytes `len` bytes from `place` of a sheet start.
    fn reach(&self, sheet: u16, place: u32, len: usize) -> Result<usize, Refusal>
        ensures { MatchResult result (λ at. Reached (room 16) (page_sizes self.now) (listed_bytes self.now) sheet place len at) (λ e. write_answer (page_sheets self.now) sheet place len ≡ Err e) }
    {
        self.sheets.reach(sheet, place, len)
    }
}

impl Store for Pages {
    ghost sheets = { page_sheets };

    fn count(&self) -> u16 {
        self.sheets.count()
    }

    fn size(&self, sheet: u16) -> u32 {
        self.sheets.size(sheet)
    }

    fn read(&self, sheet: u16, place: u32, buffer: &mut [u8]) -> Result<(), Refusal> {
        let at = self.reach(sheet, place, buffer.len())?;
        self.listed.read(at, buffer);
        Ok(())
    }

    fn write(&mut self, sheet: u16, place: u32, bytes: &[u8]) -> Result<(), Refusal>
        ensures result { result ≡ write_answer (page_sheets self.old) sheet place (length bytes.now) }
        ensures after { page_sheets self.new ≡ written (page_sheets self.old) sheet place bytes.now }
        ensures memory { Rewritten self.old sheet place bytes.now self.new }
    {
        let at = self.reach(sheet, place, bytes.len())?;
        self.listed.write(at, bytes);
        Ok(())
    }
}
