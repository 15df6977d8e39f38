// The image that the `grom` lines of a bench file give, and its dump.
ghost use Rattle.std.specs.Prelude.{◌≡◌, MatchOption, []};
ghost use Rattle.lines.specs.Shown.{Front};
ghost use Rattle.desk.specs.Desk.{cut};
ghost use Rattle.rig.specs.Meaning.{Splits, Took, Gathers};
ghost use Rattle.rig.specs.Rig;

use desk::obey::line_of;
use intelhex::dump::write_hex;
use lines::parts::Part;
use lines::print::put_bad;
use lines::read::Line;

// A line that says nothing, by its number from 1.
#[derive(Clone, Copy)]
struct BadLine {
    number: u64,
}

// The first line of a text, without its line feed, and the text after it.
fn first_line(text: &[u8]) -> Option<(&[u8], &[u8])>
    ensures { MatchOption result (cut text.now ≡ []) (λ p. Splits text.now p.0.now p.1.now) }
{
    if text.is_empty() {
        return None;
    }
    let Some(end) = text.iter().position(|c| *c == b'\n') else {
        return Some((text, &[]));
    };
    Some((&text[..end], &text[end + 1..]))
}

// The bytes of a `grom` line, laid over the image; `None` where a line says nothing.
fn take_line(line: &[u8], image: &mut [u8; 32768]) -> Option<()>
    ensures { Took line image result }
{
    if let Line::Set(Part::Grom, bytes) = line_of(line)? {
        bytes.lay(image);
    }
    Some(())
}

// All lines of a text, up to the first that says nothing.
fn gather(text: &[u8], image: &mut [u8; 32768]) -> Result<(), BadLine>
    ensures { Gathers text image result }
{
    let mut left = text;
    let mut number = 0;
    while let Some((line, rest)) = first_line(left) {
        // counted here: an iterator over lines, to be enumerated, would be longer
        number += 1;
        let Some(()) = take_line(line, image) else {
            return Err(BadLine { number });
        };
        left = rest;
    }
    Ok(())
}

// A bench file as a dump, or the number of a line that says nothing, as the bench prints it: so many bytes at the front of a lent buffer.
pub fn dump(text: &[u8], image: &mut [u8; 32768], out: &mut [u8; 90124]) -> usize
    ensures { Front (Rig.dumped text.now) out.new result }
{
    image.fill(0);
    match gather(text, image) {
        // The image has four groups, and the output room for them.
        Ok(()) => write_hex(image, out).unwrap(),
        Err(bad) => put_bad(out, 0, bad.number),
    }
}
