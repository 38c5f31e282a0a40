// The spans of sheets of given sizes.
ghost use Rattle.std.specs.Prelude.{◌≡◌, []};
ghost use Rattle.std.specs.Result.{result_map_both};
ghost use Rattle.spans.specs.Limits.{within_limits};
ghost use Rattle.spans.specs.Sizes.{limited, sizes_of};

use crate::spans::span::Span;
use crate::spans::{MOST_BYTES, MOST_SHEETS, Spans};
use refusals::refusal::Refusal;

// Whether there are few enough sheets, none of them too large.
fn within(sizes: &[u32]) -> bool
    ensures { result ≡ within_limits sizes.now }
{
    sizes.len() <= MOST_SHEETS && sizes.iter().all(|size| *size <= MOST_BYTES)
}

impl<const UNIT: u16> Spans<UNIT> {
    // No sheets.
    pub fn none() -> Spans<UNIT>
        ensures { sizes_of result ≡ [] }
    {
        Spans {
            count: 0,
            rows: [Span::default(); MOST_SHEETS],
            end: 0,
        }
    }

    // Sheets of these sizes; refused where a limit of a store is passed, and where a unit would have no bytes.
    pub fn new(sizes: &[u32]) -> Result<Spans<UNIT>, Refusal>
        ensures { result_map_both sizes_of (λ e. e) result ≡ limited UNIT sizes.now }
    {
        if UNIT == 0 || !within(sizes) {
            return Err(Refusal::StoreLimit);
        }
        let mut rows = [Span::default(); MOST_SHEETS];
        let mut end = 0;
        for (i, size) in sizes.iter().enumerate() {
            let room = size.next_multiple_of(u32::from(UNIT));
            rows[i] = Span {
                start: end,
                size: *size,
            };
            end += room;
        }
        Ok(Spans {
            // `as`, since `try_from` has an error that could not come: there are at most 64.
            count: sizes.len() as u16,
            rows,
            end,
        })
    }
}
