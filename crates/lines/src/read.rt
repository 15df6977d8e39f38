// What a line of the input says.
ghost use Rattle.std.specs.Prelude.{◌≡◌, ◌+◌, ◌*◌, ◌/◌, ◌≤◌, length, take, drop};
ghost use Rattle.lines.specs.Digits.{bytes, laid};
ghost use Rattle.lines.specs.Lines;
ghost use Rattle.lines.specs.Lines.{set_line, jumping, running, go_line, line_of};
ghost use Rattle.lines.specs.Meaning.{part_of, Says};

use crate::digits::{byte_of, count_bytes, number_of};
use crate::parts::Part;

// Bytes for a part: the address, and the digits, two for each byte.
#[derive(Clone, Copy)]
pub struct Bytes<'a> {
    pub at: u16,
    pub digits: &'a [u8],
}

#[derive(Clone, Copy)]
pub enum Line<'a> {
    Set(Part, Bytes<'a>),
    Pc(u16),
    Run(u32),
}

impl Bytes<'_> {
    // The bytes, put into their part.
    pub fn lay(self, part: &mut [u8])
        requires { self.at + length self.digits.now / 2 ≤ length part.old }
        ensures { part.new ≡ laid part.old self.entry.at (bytes self.entry.digits.now) }
    {
        lay_digits(self.digits, part, usize::from(self.at));
    }
}

// The bytes that digits say, two by two, put into a part from a cell on.
fn lay_digits(digits: &[u8], part: &mut [u8], first: usize)
    requires { first + length digits.now / 2 ≤ length part.old }
    ensures { part.new ≡ laid part.old first (bytes digits.now) }
{
    for (i, pair) in digits.chunks_exact(2).enumerate() {
        let cell = first + i;
        part[cell] = byte_of(pair[0], pair[1]);
    }
}

// So many bytes, whose digits stand in a text from a place on, put into a part from a cell on.
pub fn set_bytes(text: &[u8], from: usize, count: usize, part: &mut [u8], at: usize)
    requires { (from + 2 * count ≤ length text.now) × (at + count ≤ length part.old) }
    ensures { part.new ≡ laid part.old at (bytes (take (2 * count) (drop from text.now))) }
{
    lay_digits(&text[from..from + 2 * count], part, at);
}

// A line of bytes, from its address on.
fn set_line(part: Part, text: &[u8]) -> Option<Line<'_>>
    ensures { Says text.now result (set_line (part_of part) text.now) }
{
    let places = part.places();
    if text.len() <= places || text[places] != b'\t' {
        return None;
    }
    let n = number_of(&text[..places], 16, 65535)?;
    let digits = &text[places + 1..];
    let count = count_bytes(digits)?;
    let end = n as usize + count;
    if part.size() < end {
        return None;
    }
    let at = n as u16;
    Some(Line::Set(part, Bytes { at, digits }))
}

fn pc_line(s: &[u8]) -> Option<u16>
    ensures { jumping result ≡ Lines.pc_line s.now }
{
    if s.len() != 4 {
        return None;
    }
    let n = number_of(s, 16, 65535)?;
    let pc = n as u16;
    Some(pc)
}

fn run_line(s: &[u8]) -> Option<u32>
    ensures { running result ≡ Lines.run_line s.now }
{
    let n = number_of(s, 10, 4294967295)?;
    let steps = n as u32;
    Some(steps)
}

// A line that gives no part bytes.
fn go_line(text: &[u8]) -> Option<Line<'_>>
    ensures { Says text.now result (go_line text.now) }
{
    if let Some(rest) = text.strip_prefix(b"pc\t") {
        return Some(Line::Pc(pc_line(rest)?));
    }
    let rest = text.strip_prefix(b"run\t")?;
    Some(Line::Run(run_line(rest)?))
}

// A whole line, without its line feed: `None` where it says nothing.
pub fn read_line(text: &[u8]) -> Option<Line<'_>>
    ensures { Says text.now result (line_of text.now) }
{
    for part in [Part::Grom, Part::Pad, Part::Vdp, Part::Reg] {
        if let Some(rest) = text.strip_prefix(part.opening()) {
            return set_line(part, rest);
        }
    }
    go_line(text)
}
