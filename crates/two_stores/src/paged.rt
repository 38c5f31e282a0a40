// The example vault over a page store of zeros: its text of a day is the one that it has over a slab.
ghost use Rattle.std.specs.Prelude.{◌≡◌, IfOk, string_bytes};
ghost use Rattle.pages.specs.PageStores.{page_sheets};
ghost use Rattle.dayrun.specs.Example.{example_text, zeros};

use dayrun::example;
use pages::pages::Pages;
use std::alloc::{AllocError, Global};
use std::fmt;

// Each of the five sheets has one page. Pages 4 and 5 of the seven are not used.
const LIST: [u16; 5] = [3, 1, 6, 0, 2];

const MEMORY: usize = 112;

// A page store of the example's sheets, all zeros.
fn store(alloc: Global) -> Result<Pages, AllocError>
    ensures { IfOk result (λ s. page_sheets s ≡ zeros) }
{
    let list = LIST.to_vec(alloc)?;
    let memory = vec![in alloc; 0; MEMORY]?;
    Ok(Pages::new(&example::SIZES, list, memory))
}

// The text of a day. Only want of memory fails; where it comes while the text is made, it is told as the error of formatting.
pub fn text(alloc: Global, input: &[u8]) -> anyhow::Result<String>
    ensures { IfOk result (λ out. string_bytes out ≡ example_text input.now) }
{
    Ok(example::text_over(alloc, store(alloc)?, input).map_err(fmt::Error::from)?)
}
