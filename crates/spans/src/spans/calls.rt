// What is asked of the spans of a store's sheets at a call.
ghost use Rattle.std.specs.Prelude.{◌≡◌, ◌+◌, ◌≤◌, length, take, sum_by, slice_index};
ghost use Rattle.refusals.specs.Refusals.{checked};
ghost use Rattle.spans.specs.Rooms.{room};
ghost use Rattle.spans.specs.Bounds.{bound_tests};
ghost use Rattle.spans.specs.Sizes.{sizes_of};

use crate::spans::Spans;
use crate::spans::span::Span;
use refusals::refusal::Refusal;

impl<const UNIT: u16> Spans<UNIT> {
    // The spans of the sheets.
    fn in_use(&self) -> &[Span]
        ensures { result.now ≡ take self.now.count self.now.rows }
    {
        &self.rows[..usize::from(self.count)]
    }

    // How many sheets there are.
    pub fn count(&self) -> u16
        ensures value { result ≡ length (sizes_of self.now) }
        ensures fits { result ≤ 64 }
    {
        self.count
    }

    // The size of a sheet, and 0 where there is no such sheet.
    pub fn size(&self, sheet: u16) -> u32
        ensures value { result ≡ slice_index (sizes_of self.now) sheet }
        ensures fits { slice_index (sizes_of self.now) sheet ≤ 4096 }
    {
        let rows = self.in_use();
        rows.get(usize::from(sheet)).map_or(0, |span| span.size)
    }

    // How many bytes of the memory the sheets take.
    pub fn end(&self) -> usize
        ensures { result ≡ sum_by (room UNIT) (sizes_of self.now) }
    {
        // No plainer otherwise: `usize` has no `From<u32>`.
        self.end as usize
    }

    // Where in the memory `len` bytes from `place` of a sheet start.
    pub fn reach(&self, sheet: u16, place: u32, len: usize) -> Result<usize, Refusal>
        ensures { result ≡ checked (bound_tests (length (sizes_of self.now)) (slice_index (sizes_of self.now) sheet) sheet place len) (sum_by (room UNIT) (take sheet (sizes_of self.now)) + place) }
    {
        let rows = self.in_use();
        let span = rows.get(usize::from(sheet)).ok_or(Refusal::NoSheet)?;
        span.reach(place, len)
    }
}
