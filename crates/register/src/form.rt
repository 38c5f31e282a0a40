// The binary form of a register: its bytes with the counts that they begin with, and what they say row by row.
ghost use Rattle.std.specs.Prelude.{◌≡◌, ◌+◌, ◌<◌, ◌≤◌, ℕ, true, length, map, take, slice_index_or};
ghost use Rattle.std.specs.List.{range_with_len};
ghost use Rattle.register.specs.Layout.{within_limits, whole_length, label_count, label_at, entry_at, certificate_at, start_at};

use crate::certificate::Certificate;
use crate::entry::Entry;
use crate::fields::field;
use crate::label::Label;
use crate::layout::{HEAD, Layout};
use crate::tables::{MOST_CERTIFICATES, MOST_SEATS, MOST_SHEETS};

// Counts within their limits, with the bytes that they begin: as many as they ask for.
#[derive(Clone, Copy)]
pub struct Form<'a> {
    pub layout: Layout,
    pub bytes: &'a [u8],
    ghost within: { within_limits layout ≡ true },
    ghost whole: { length bytes.now ≡ whole_length layout },
}

impl Form<'_> {
    // The label at place i among all labels.
    fn label(&self, i: usize) -> Label
        requires { i < label_count self.now.layout }
        ensures { result ≡ label_at self.now.layout self.now.bytes.now i }
    {
        Label {
            mark: u64::from_be_bytes(field(self.bytes, self.layout.marks_from() + 8 * i)),
            grade: u64::from_be_bytes(field(self.bytes, self.layout.grades_from() + 8 * i)),
        }
    }

    // The size and the label of sheet k.
    fn entry(&self, k: usize) -> Entry
        requires { k < self.now.layout.sheets }
        ensures { result ≡ entry_at self.now.layout self.now.bytes.now k }
    {
        Entry {
            size: u32::from_be_bytes(field(self.bytes, HEAD + 4 * k)),
            label: self.label(k),
        }
    }

    // The program number of certificate j, with its reading and its writing label.
    fn certificate(&self, j: usize) -> Certificate
        requires { j < self.now.layout.certificates }
        ensures { result ≡ certificate_at self.now.layout self.now.bytes.now j }
    {
        let first = usize::from(self.layout.sheets) + 2 * j;
        Certificate {
            program: u16::from_be_bytes(field(self.bytes, self.layout.programs_from() + 2 * j)),
            reading: self.label(first),
            writing: self.label(first + 1),
        }
    }

    // The program that seat i starts with.
    fn start(&self, i: usize) -> u16
        requires { i < self.now.layout.seats }
        ensures { result ≡ start_at self.now.layout self.now.bytes.now i }
    {
        u16::from_be_bytes(field(self.bytes, self.layout.starts_from() + 2 * i))
    }

    // An entry for each sheet, in front.
    pub fn entries(&self) -> [Entry; MOST_SHEETS]
        ensures rows { take self.now.layout.sheets result ≡ map (entry_at self.now.layout self.now.bytes.now) (range_with_len 0 self.now.layout.sheets) }
        ensures size { length result ≡ 64 }
    {
        rows(self.layout.sheets, |k| self.entry(k))
    }

    // The certificates, each with its program number, in front.
    pub fn certificates(&self) -> [Certificate; MOST_CERTIFICATES]
        ensures rows { take self.now.layout.certificates result ≡ map (certificate_at self.now.layout self.now.bytes.now) (range_with_len 0 self.now.layout.certificates) }
        ensures size { length result ≡ 32 }
    {
        rows(self.layout.certificates, |j| self.certificate(j))
    }

    // The program that each seat starts with, in front.
    pub fn starts(&self) -> [u16; MOST_SEATS]
        ensures rows { take self.now.layout.seats result ≡ map (start_at self.now.layout self.now.bytes.now) (range_with_len 0 self.now.layout.seats) }
        ensures size { length result ≡ 32 }
    {
        rows(self.layout.seats, |i| self.start(i))
    }
}

// A table with as many rows in front as are counted, each as `row` gives it at its place, and blanks after them.
fn rows<T: Copy + Default, const N: usize, F: Fn(usize) -> T>(count: u16, row: F) -> [T; N]
    requires room { count ≤ N }
    requires callable { (i : ℕ) → i < count → F.pre row i }
    ensures rows { (i : ℕ) (d : T) → i < count → F.post row i (slice_index_or result i d) }
    ensures size { length result ≡ N }
{
    let mut rows = [T::default(); N];
    // A rule of the project wants a `for` here (docs/DECISIONS.md, Named forms).
    for i in 0..usize::from(count) {
        rows[i] = row(i);
    }
    rows
}
