// The check that comes before a slab is made, and the making.
ghost use Rattle.std.specs.Prelude.{◌≡◌};
ghost use Rattle.std.specs.Result.{result_map_both};
ghost use Rattle.spans.specs.Sizes.{sizes_of};
ghost use Rattle.stores.specs.Slabs.{fitted, made_sheets, slab_check, slab_memory, slab_sheets};

use crate::slab::Slab;
use refusals::refusal::Refusal;
use spans::spans::Spans;

// How sheets of these sizes stand in a memory of this length.
fn fit(sizes: &[u32], memory_len: usize) -> Result<Spans<1>, Refusal>
    ensures { result_map_both sizes_of (λ e. e) result ≡ fitted sizes.now memory_len }
{
    let sheets = Spans::new(sizes)?;
    if sheets.end() > memory_len {
        return Err(Refusal::PastMemory);
    }
    Ok(sheets)
}

impl Slab {
    // Whether sheets of these sizes can stand in a memory of this length.
    pub fn check(sizes: &[u32], memory_len: usize) -> Result<(), Refusal>
        ensures { result ≡ slab_check sizes.now memory_len }
    {
        fit(sizes, memory_len)?;
        Ok(())
    }

    // The slab with these sheets in the memory; one of no sheets where the check refuses.
    pub fn new(sizes: &[u32], memory: Vec<u8>) -> Slab
        ensures sheets { slab_sheets result ≡ made_sheets sizes.now memory.items }
        ensures memory { slab_memory result ≡ memory.items }
    {
        let sheets = fit(sizes, memory.len()).unwrap_or_else(|_| Spans::none());
        Slab { memory, sheets }
    }
}
