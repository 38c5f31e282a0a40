// A page store: its sheets take whole pages of a memory that it owns. A list of page numbers says which: the first sheet
// takes the first pages of the list, as many as its size needs, and each other sheet the next ones.
ghost use Rattle.std.specs.Prelude.{◌≡◌, ◌≤◌, true, vec_len};
ghost use Rattle.spans.specs.Sizes.{sizes_of};
ghost use Rattle.pages.specs.Paging.{all_inside, needed, none_twice};

use spans::spans::Spans;

mod calls;
mod copying;
mod making;

// The bytes of a page.
const PAGE: usize = 16;

// The longest list of pages.
const MOST_PAGES: usize = 1024;

// A memory, and a list of some of its pages.
#[derive(Drop)]
struct ListedPages {
    memory: Vec<u8>,
    // The numbers of the pages that are used, in the order of the sheets.
    list: Vec<u16>,
    ghost short: { vec_len list ≤ 1024 },
    ghost apart: { none_twice list.items ≡ true },
    ghost whole: { all_inside list.items (vec_len memory) ≡ true },
}

// A page store: the listed pages of its memory, and where its sheets stand among their bytes. One generic type with the slab is
// no plainer: it wants a trait for what holds the bytes, with a law of what a write leaves beside them, and shares four
// short calls; what both have in common is `Spans`.
#[derive(Drop)]
pub struct Pages {
    listed: ListedPages,
    sheets: Spans<16>,
    ghost enough: { vec_len listed.list ≡ needed (sizes_of sheets) },
}
