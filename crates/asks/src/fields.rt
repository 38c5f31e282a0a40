// The parts of a line after its letter: numbers behind one space each, and the bytes of a write.
ghost use Rattle.std.specs.Prelude.{◌≡◌, ◌≤◌, IfSome};
ghost use Rattle.std.specs.Option.{option_map};
ghost use Rattle.asks.specs.Lines as lines;

use crate::cut::len_before;
use crate::number::number;

// The number after one space, where it is at most `most`, and what follows it.
// No plainer by the library's `TryFrom<u64>`: each clause would name the bound's ghost member and its range in place of a limit.
pub fn field(text: &[u8], most: u64) -> Option<(u64, &[u8])>
    ensures value { option_map (λ x. (x.0, x.1.now)) result ≡ lines.field most text.now }
    ensures bound { IfSome result (λ x. x.0 ≤ most) }
{
    let text = text.strip_prefix(b" ")?;
    let (word, text) = text.split_at(len_before(text, b' '));
    let n = number(word, most)?;
    Some((n, text))
}

// The number after one space, where it is at most `most` and the line stops after it.
pub fn last_field(text: &[u8], most: u64) -> Option<u64>
    ensures value { result ≡ lines.last_field most text.now }
    ensures bound { IfSome result (λ n. n ≤ most) }
{
    let (n, text) = field(text, most)?;
    text.is_empty().then_some(n)
}

// The bytes after a space, or the blank text where the line stops.
pub fn rest_or<'a>(text: &'a [u8], blank: &'a [u8]) -> Option<&'a [u8]>
    ensures { option_map (λ x. x.now) result ≡ lines.rest blank.now text.now }
{
    match text.split_first() {
        None => Some(blank),
        Some((b' ', bytes)) => Some(bytes),
        Some(_) => None,
    }
}
