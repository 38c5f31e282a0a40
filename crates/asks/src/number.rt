// Decimal numbers of one to nine digits.
ghost use Rattle.std.specs.Prelude.{◌≡◌, ◌^◌, ◌<◌, ◌≤◌, true, length};
ghost use Rattle.std.specs.Str.{all_ascii_digits};
ghost use Rattle.asks.specs.Numbers as numbers;

const MOST_DIGITS: usize = 9;

// Whether each byte is a decimal digit.
fn all_digits(text: &[u8]) -> bool
    ensures { result ≡ all_ascii_digits text.now }
{
    text.iter().all(|b| b.is_ascii_digit())
}

// The number of the digits: its front digits times ten plus its last.
fn value(digits: &[u8]) -> u64
    requires few { length digits.now ≤ 9 }
    requires digits { all_ascii_digits digits.now ≡ true }
    ensures value { result ≡ numbers.number digits.now }
    ensures bound { result < 10 ^ length digits.now }
{
    match digits {
        [] => 0,
        [front @ .., last] => value(front) * 10 + u64::from(*last - b'0'),
    }
}

// The number of a text that is one to nine digits, where it is at most `most`.
pub fn number(text: &[u8], most: u64) -> Option<u64>
    ensures { result ≡ numbers.numeral most text.now }
{
    if text.is_empty() || text.len() > MOST_DIGITS || !all_digits(text) {
        return None;
    }
    let n = value(text);
    (n <= most).then_some(n)
}

// Holds of the numbers in a line: the digits of each below a thousand million are read back as that number, and a number is its front digits times ten plus its last.
pub fn numbers_stand()
    ensures back { numbers.ReadsBack }
    ensures last { numbers.ByLast }
{}
