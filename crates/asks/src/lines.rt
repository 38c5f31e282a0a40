// The lines of a text, one after the other.
ghost use Rattle.std.specs.Prelude.{◌≡◌, ◌<◌, [], ◌∷◌, length, IfSome, MatchOption};
ghost use Rattle.std.specs.Option.{option_map};
ghost use Rattle.asks.specs.Rows.{rows, split_line};

use crate::cut::len_before;

// The first line of a text, without the byte 10 that ends it, and what follows that byte.
pub fn first_line(text: &[u8]) -> Option<(&[u8], &[u8])>
    ensures value { option_map (λ x. (x.0.now, x.1.now)) result ≡ split_line text.now }
    ensures first { MatchOption result (rows text.now ≡ []) (λ x. rows text.now ≡ x.0.now ∷ rows x.1.now) }
    ensures shorter { IfSome result (λ x. length x.1.now < length text.now) }
{
    if text.is_empty() {
        return None;
    }
    let (line, rest) = text.split_at(len_before(text, b'\n'));
    let after = rest.get(1..).unwrap_or(rest);
    Some((line, after))
}

// The lines of a text, as an iterator.
#[derive(Clone, Copy, Debug)]
pub struct Lines<'a> {
    rest: &'a [u8],
}

impl<'a> Lines<'a> {
    ghost use Rattle.asks.specs.LinesLeft.{lines_left};

    // All lines of a text.
    pub fn new(text: &'a [u8]) -> Self
        ensures { lines_left result ≡ rows text.now }
    {
        Lines { rest: text }
    }
}

impl<'a> Iterator for Lines<'a> {
    type Item = &'a [u8];

    ghost use Rattle.std.specs.Iterator.{YieldsFirstRef, item_count};
    ghost use Rattle.asks.specs.LinesLeft.{lines_left};

    ghost next_gives = { YieldsFirstRef lines_left };

    ghost remaining = { item_count lines_left };

    fn next(&mut self) -> Option<&'a [u8]> {
        let (line, rest) = first_line(self.rest)?;
        self.rest = rest;
        Some(line)
    }
}
