// What a store means: a row of sheets, numbered from 0, each with a fixed size and that many bytes.
ghost use Rattle.std.specs.Prelude.{◌≡◌, ℕ, List, length};
ghost use Rattle.stores.specs.Sheets.{filled, read_answer, size_of, write_answer, written};

use refusals::refusal::Refusal;

// The numbers of a call stand apart, here and in the vault, as the rules name them one by one; a struct of them would be no plainer.
pub trait Store {
    // The bytes of each sheet, in number order; a sheet's length is its size.
    ghost sheets: { Self → List (List ℕ) };

    // How many sheets there are.
    fn count(&self) -> u16
        ensures { result ≡ length (sheets self.now) };

    // The size of a sheet, and 0 where there is no such sheet.
    fn size(&self, sheet: u16) -> u32
        ensures { result ≡ size_of (sheets self.now) sheet };

    // Fills `buffer` from the sheet's bytes that start at `place`.
    fn read(&self, sheet: u16, place: u32, buffer: &mut [u8]) -> Result<(), Refusal>
        ensures result { result ≡ read_answer (sheets self.now) sheet place (length buffer.old) }
        ensures buffer { buffer.new ≡ filled (sheets self.now) sheet place buffer.old };

    // Puts `bytes` over the sheet's bytes that start at `place`.
    fn write(&mut self, sheet: u16, place: u32, bytes: &[u8]) -> Result<(), Refusal>
        ensures result { result ≡ write_answer (sheets self.old) sheet place (length bytes.now) }
        ensures after { sheets self.new ≡ written (sheets self.old) sheet place bytes.now };
}
