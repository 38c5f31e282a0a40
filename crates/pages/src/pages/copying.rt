// Copies between a caller's bytes and the listed pages of a memory, which are read and written as if they stood end to end.
ghost use Rattle.std.specs.Prelude.{◌≡◌, ◌+◌, ◌-◌, ◌*◌, ◌/◌, ◌%◌, ◌<◌, ◌≤◌, min, length, take, drop, vec_len, slice_index};
ghost use Rattle.stores.specs.Splices.{spliced};
ghost use Rattle.pages.specs.Paging.{OthersSame};
ghost use Rattle.pages.specs.PageStores.{bytes_of};

use crate::pages::{ListedPages, PAGE};

impl ListedPages {
    // Where in the memory the listed byte `at` stands, which is on page i of the list, and how many of the `len` bytes from it on stand
    // on the same page.
    fn stretch(&self, i: usize, at: usize, len: usize) -> (usize, usize)
        requires { i < vec_len self.now.list }
        ensures start { result.0 ≡ 16 * slice_index self.now.list.items i + at % 16 }
        ensures len { result.1 ≡ min len (16 - at % 16) }
    {
        let inside = at % PAGE;
        let page = usize::from(self.list[i]);
        (PAGE * page + inside, len.min(PAGE - inside))
    }

    // Fills `buffer` with the listed bytes from `at` on.
    pub fn read(&self, at: usize, buffer: &mut [u8])
        requires { at + length buffer.old ≤ 16 * vec_len self.now.list }
        ensures { buffer.new ≡ take (length buffer.old) (drop at (bytes_of self.now)) }
    {
        // Page i of the list has the bytes from `done` on.
        let mut done = 0;
        for i in at / PAGE..(at + buffer.len()).div_ceil(PAGE) {
            let (start, len) = self.stretch(i, at + done, buffer.len() - done);
            buffer[done..done + len].copy_from_slice(&self.memory[start..start + len]);
            done += len;
        }
    }

    // Puts `bytes` over the listed bytes from `at` on; no other byte of the memory changes.
    pub fn write(&mut self, at: usize, bytes: &[u8])
        requires { at + length bytes.now ≤ 16 * vec_len self.old.list }
        ensures list { self.new.list ≡ self.old.list }
        ensures listed { bytes_of self.new ≡ spliced (bytes_of self.old) at bytes.now }
        ensures others { OthersSame self.old.list.items self.old.memory.items self.new.memory.items }
        ensures len { vec_len self.new.memory ≡ vec_len self.old.memory }
    {
        // Page i of the list takes the bytes from `done` on.
        let mut done = 0;
        for i in at / PAGE..(at + bytes.len()).div_ceil(PAGE) {
            let (start, len) = self.stretch(i, at + done, bytes.len() - done);
            self.memory[start..start + len].copy_from_slice(&bytes[done..done + len]);
            done += len;
        }
    }
}
