// The check that comes before a page store is made, and the making.
ghost use Rattle.std.specs.Prelude.{◌≡◌, not};
ghost use Rattle.std.specs.Result.{result_map_both};
ghost use Rattle.spans.specs.Sizes.{sizes_of};
ghost use Rattle.pages.specs.PageStores.{fitted, made_list, made_sheets, page_check, page_list, page_memory, page_sheets};
ghost use Rattle.pages.specs.Paging.{all_inside, none_twice};

use crate::pages::{ListedPages, MOST_PAGES, PAGE, Pages};
use refusals::refusal::Refusal;
use spans::spans::Spans;

// Whether a page is in the list twice.
fn any_twice(list: &[u16]) -> bool
    ensures { result ≡ not (none_twice list.now) }
{
    list.iter()
        .enumerate()
        .any(|(i, page)| list[i + 1..].contains(page))
}

// Whether each listed page lies whole inside a memory of this length.
fn inside(list: &[u16], memory_len: usize) -> bool
    ensures { result ≡ all_inside list.now memory_len }
{
    list.iter()
        .all(|page| PAGE * usize::from(*page) + PAGE <= memory_len)
}

// How sheets of these sizes stand on the listed pages of a memory of this length. The three are kept together nowhere, so a struct of
// them would be no plainer.
fn fit(sizes: &[u32], list: &[u16], memory_len: usize) -> Result<Spans<16>, Refusal>
    ensures { result_map_both sizes_of (λ e. e) result ≡ fitted sizes.now list.now memory_len }
{
    let sheets = Spans::new(sizes)?;
    if list.len() > MOST_PAGES {
        return Err(Refusal::StoreLimit);
    }
    if PAGE * list.len() != sheets.end() {
        return Err(Refusal::StoreLimit);
    }
    if any_twice(list) {
        return Err(Refusal::StoreLimit);
    }
    if !inside(list, memory_len) {
        return Err(Refusal::PastMemory);
    }
    Ok(sheets)
}

impl Pages {
    // Whether sheets of these sizes can take the listed pages of a memory of this length.
    pub fn check(sizes: &[u32], list: &[u16], memory_len: usize) -> Result<(), Refusal>
        ensures { result ≡ page_check sizes.now list.now memory_len }
    {
        fit(sizes, list, memory_len)?;
        Ok(())
    }

    // The page store with these sheets on the listed pages of the memory; one of no sheets where the check refuses.
    pub fn new(sizes: &[u32], mut list: Vec<u16>, memory: Vec<u8>) -> Pages
        ensures sheets { page_sheets result ≡ made_sheets sizes.now list.items memory.items }
        ensures list { page_list result ≡ made_list sizes.now list.items memory.items }
        ensures memory { page_memory result ≡ memory.items }
    {
        // No plainer as a `match`: where the check refuses, the list is cleared first.
        let Ok(sheets) = fit(sizes, list.as_slice(), memory.len()) else {
            list.clear();
            return Pages {
                listed: ListedPages { memory, list },
                sheets: Spans::none(),
            };
        };
        Pages {
            listed: ListedPages { memory, list },
            sheets,
        }
    }
}
