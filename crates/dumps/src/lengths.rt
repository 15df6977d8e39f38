// Images of other lengths than the program's, read and written.
ghost use Rattle.std.specs.Prelude.{◌≤◌};

use intelhex::dump::{read_hex, write_hex};
use std::io;
use std::io::Write;

// How many bytes are not 0, and how many there are.
fn show_set<W: Write>(output: &mut W, bytes: &[u8]) -> io::Result<()> {
    let set = bytes.iter().filter(|byte| **byte != 0).count();
    writeln!(output, "  bytes set\t{set}\t{}", bytes.len())
}

// The answer and the line of a text; then the bytes of an image that was not 0.
fn try_read<W: Write, const N: usize>(output: &mut W, what: &str, text: &[u8]) -> io::Result<()>
    requires { N ≤ 65536 }
{
    let mut image = [0x55; N];
    let (answer, line) = match read_hex(text, &mut image) {
        Ok(()) => (0, 0),
        Err(why) => (why.answer(), why.line()),
    };
    writeln!(output, "{what}\t{answer}\t{line}")?;
    show_set(output, &image)
}

// The answer of a write, and how many bytes it has; then the bytes of an output that was 0.
fn try_write<W: Write, const N: usize, const M: usize>(output: &mut W, what: &str) -> io::Result<()>
    requires image { N ≤ 65536 }
    requires out { M ≤ 65536 }
{
    let mut out = [0; M];
    let (answer, count) = match write_hex(&[0; N], &mut out) {
        Ok(count) => (0, count),
        Err(why) => (why.answer(), 0),
    };
    writeln!(output, "{what}\t{answer}\t{count}")?;
    show_set(output, &out)
}

pub(crate) fn reads<W: Write>(output: &mut W) -> io::Result<()> {
    let end = b":00000001FF\n";
    let last = b":01FFFF00AA57\n:00000001FF\n";
    let past = b":02FFFF00AABB9B\n:00000001FF\n";
    let last_of_one = b":011FFF00AA37\n:00000001FF\n";
    let past_one = b":01200000AA35\n:00000001FF\n";
    try_read::<W, 65536>(output, "eight groups, the last byte", last)?;
    try_read::<W, 65536>(output, "eight groups, one past the last byte", past)?;
    try_read::<W, 1>(output, "one byte", end)?;
    try_read::<W, 8191>(output, "a byte less than a group", end)?;
    try_read::<W, 8192>(output, "one group, its last byte", last_of_one)?;
    try_read::<W, 8192>(output, "one group, one past it", past_one)
}

pub(crate) fn writes<W: Write>(output: &mut W) -> io::Result<()> {
    try_write::<W, 8192, 22541>(output, "a group written, a byte more than enough")?;
    try_write::<W, 8192, 22540>(output, "a group written, just enough")?;
    try_write::<W, 8192, 22539>(output, "a group written, a byte too few")?;
    try_write::<W, 8193, 1>(output, "a wrong length, before too few")
}
