// Where a text is cut.
ghost use Rattle.std.specs.Prelude.{◌≡◌, ◌≤◌, length};
ghost use Rattle.asks.specs.Rows.{before};

// How many bytes stand before the first byte `end`.
pub fn len_before(text: &[u8], end: u8) -> usize
    ensures value { result ≡ before end text.now }
    ensures bound { result ≤ length text.now }
{
    text.iter().position(|b| *b == end).unwrap_or(text.len())
}
