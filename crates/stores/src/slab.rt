// A slab: its sheets stand end to end, in number order, in one memory that it owns.
ghost use Rattle.std.specs.Prelude.{◌≡◌, ◌≤◌, true, length, vec_len, sum, nat_le};
ghost use Rattle.spans.specs.Sizes.{sizes_of};

use spans::spans::Spans;

mod calls;
mod making;

#[derive(Drop)]
pub struct Slab {
    memory: Vec<u8>,
    sheets: Spans<1>,
    ghost few: { length (sizes_of sheets) ≤ 64 },
    ghost inside: { nat_le (sum (sizes_of sheets)) (vec_len memory) ≡ true },
}
