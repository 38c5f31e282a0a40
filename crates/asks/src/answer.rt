// What the day run prints of an answer.
ghost use Rattle.std.specs.Prelude.{◌≡◌, ◌<◌, map, Some};
ghost use Rattle.asks.specs.Replies as replies;

use refusals::refusal::Refusal;
use std::fmt;

// A printed line: for a malformed line of input, for an answered call, and for the opening, with its number.
#[derive(Clone, Copy, Debug)]
pub enum Answer<'a> {
    Malformed,
    Refused(Refusal),
    Done,
    // The buffer that a read or a run filled.
    Filled(&'a [u8]),
    // The running program and the slip.
    Told(u16, u64),
    Opened(u8),
}

// Bytes as they are printed: those that show no sign as a dot.
#[derive(Clone, Copy)]
struct Visible<'a>(&'a [u8]);

fn sign_of(b: u8) -> char
    ensures value { result ≡ replies.visible b }
    ensures bound { result < 128 }
{
    match b {
        b' '..=b'~' => char::from(b),
        _ => '.',
    }
}

impl fmt::Display for Visible<'_> {
    ghost output = { λ v. Some (map replies.visible v.0.now) };

    fn fmt<W: fmt::Write>(&self, f: &mut fmt::Formatter<W>) -> fmt::Result {
        for b in self.0 {
            f.write_char(sign_of(*b))?;
        }
        Ok(())
    }
}

impl fmt::Display for Answer<'_> {
    ghost output = { λ a. Some (replies.line_text a) };

    fn fmt<W: fmt::Write>(&self, f: &mut fmt::Formatter<W>) -> fmt::Result {
        match self {
            Answer::Malformed => write!(f, "?"),
            Answer::Refused(refusal) => write!(f, "no {refusal}"),
            Answer::Done => write!(f, "ok"),
            Answer::Filled(buffer) => write!(f, "ok {}", Visible(buffer)),
            Answer::Told(program, slip) => write!(f, "ok {program} {slip}"),
            Answer::Opened(number) => write!(f, "open {number}"),
        }
    }
}
