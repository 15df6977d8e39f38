// A thin reader: what is left of a text, record by record.
ghost use Rattle.std.specs.Prelude.{◌≡◌, ◌<◌, length};
ghost use Rattle.std.specs.Iterator.{at_most};
ghost use Rattle.intelhex.specs.Meaning.{Cuts, Turns};

use crate::line::{Record, record_in};

#[derive(Clone, Copy)]
pub struct Reader<'a> {
    pub left: &'a [u8],
}

// The first line without its end, and what follows it: a CR before the line feed belongs to the end.
fn first_line(text: &[u8]) -> (&[u8], &[u8])
    requires { 0 < length text.now }
    ensures { Cuts text.now result.0.now result.1.now }
{
    let Some(end) = text.iter().position(|c| *c == b'\n') else {
        return (text, &[]);
    };
    let line = &text[..end];
    (line.strip_suffix(b"\r").unwrap_or(line), &text[end + 1..])
}

impl<'a> Reader<'a> {
    pub fn new(text: &'a [u8]) -> Reader<'a>
        ensures { result.left ≡ text.entry }
    {
        Reader { left: text }
    }
}

// The records of the lines, one after the other: `None` for a line that says none.
impl<'a> Iterator for Reader<'a> {
    type Item = Option<Record<'a>>;

    ghost next_gives = { Turns };

    ghost remaining = { λ s. at_most (length s.left.now) };

    fn next(&mut self) -> Option<Option<Record<'a>>> {
        if self.left.is_empty() {
            return None;
        }
        let (line, left) = first_line(self.left);
        self.left = left;
        Some(record_in(line))
    }
}
