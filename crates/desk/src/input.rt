// An input, piece by piece: its lines, found in what was read of it, and more of it read.
ghost use Rattle.std.specs.Prelude.{◌≡◌, ◌+◌, ◌-◌, ◌<◌, ◌≤◌, length, take, drop, IfOk, OnErr};
ghost use Rattle.desk.specs.Bytes.{index_of, slice};
ghost use Rattle.desk.specs.Meaning.{Finds, Grows};

use std::io;
use std::io::Read;

// A `grom` line for the whole image has so many bytes. No longer line says anything.
pub const LONGEST: usize = 65546;

// With one byte more a text has a whole line.
pub const PIECE: usize = LONGEST + 1;

// Where a line ends, and where the next one begins.
#[derive(Clone, Copy)]
pub struct Span {
    pub end: usize,
    pub next: usize,
}

// The first place from one on, and before another, where a byte stands; that other, where none does: the caller then goes up to it.
pub fn find(text: &[u8], from: usize, end: usize, byte: u8) -> usize
    requires { (from ≤ end) × (end ≤ length text.now) }
    ensures { (result ≡ from + index_of byte (slice from end text.now)) × (result ≤ end) }
{
    match text[from..end].iter().position(|c| *c == byte) {
        Some(i) => from + i,
        None => end,
    }
}

// The line that begins at a place, if more can't be a part of it: the last one of an input that has `ended` may lack its line feed, and one too long
// to say anything needs none.
pub fn line_at(text: &[u8], at: usize, ended: bool) -> Option<Span>
    requires { at ≤ length text.now }
    ensures { Finds ended text.now at result }
{
    let have = text.len();
    let end = find(text, at, have, b'\n');
    if end < have {
        let next = end + 1;
        return Some(Span { end, next });
    }
    let size = end - at;
    if LONGEST < size {
        return Some(Span { end, next: end });
    }
    if size == 0 || !ended {
        return None;
    }
    Some(Span { end, next: end })
}

// The bytes from a place on, moved to the front.
pub(crate) fn to_front(text: &mut [u8], from: usize, have: usize)
    requires { (from ≤ have) × (have ≤ length text.old) }
    ensures { take (have - from) text.new ≡ drop from (take have text.old) }
{
    text.copy_within(from..have, 0);
}

// What is left is moved to the front, and more is read after it. There is room for a byte: where there are no more than before, the input has ended.
// Where the read fails, what is left is at the front all the same.
pub fn refill<R: Read>(
    input: &mut R,
    text: &mut [u8],
    from: usize,
    have: usize,
) -> io::Result<usize>
    requires { (from ≤ have) × (have ≤ length text.old) × (have - from < length text.old) }
    ensures ok { IfOk result (λ n. Grows (drop from (take have text.old)) text.new n) }
    ensures err { OnErr result (Grows (drop from (take have text.old)) text.new (have - from)) }
{
    to_front(text, from, have);
    let kept = have - from;
    let got = input.read(&mut text[kept..])?;
    Ok(kept + got)
}
