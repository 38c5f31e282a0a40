// The same day at two vaults: the example vault over a slab, and over a page store. Reads standard input, answers its
// lines at each, and prints both texts.
#![tactic(auto)]

mod paged;

use dayrun::day::MOST_INPUT;
use dayrun::example;
use std::io::Read;

fn main(rt: HostRuntime) -> anyhow::Result<()> {
    let mut input = Vec::new(rt.alloc());
    rt.stdin().take(MOST_INPUT).read_to_end(&mut input)?;
    let on_slab = example::text(rt.alloc(), input.as_slice())?;
    let on_pages = paged::text(rt.alloc(), input.as_slice())?;
    println!(rt; "slab")?;
    rt.print(on_slab)?;
    println!(rt; "pages")?;
    rt.print(on_pages)?;
    Ok(())
}
