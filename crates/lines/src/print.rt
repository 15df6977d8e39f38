// The lines that the program prints, each put at a place of a lent buffer: the answer is the place past it.
// No struct holds both: that a lent slice keeps its length every caller knows; of a slice in a field each contract would have to say it.
// No `Display`: nothing is allocated, and `Prints` says each byte of the buffer and that the others stay.
ghost use Rattle.std.specs.Prelude.{◌≡◌, ◌+◌, ◌*◌, ◌≤◌, length};
ghost use Rattle.lines.specs.Digits;
ghost use Rattle.lines.specs.Digits.{digits_of, show_decimal};
ghost use Rattle.lines.specs.Shown;
ghost use Rattle.lines.specs.Shown.{Prints, changed};
ghost use Rattle.lines.specs.Meaning.{part_of};

use crate::digits::glyph;
use crate::parts::Part;

pub fn put_word(out: &mut [u8], at: usize, word: &[u8]) -> usize
    requires { at + length word.now ≤ length out.old }
    ensures { Prints (length word.now) word.now out at result }
{
    let end = at + word.len();
    out[at..end].copy_from_slice(word);
    end
}

// The last `width` digits of a number, from the last one on.
pub fn put_digits(out: &mut [u8], at: usize, base: u64, width: usize, n: u64) -> usize
    requires { (1 ≤ base) × (base ≤ 16) × (at + width ≤ length out.old) }
    ensures { Prints width (digits_of base width n) out at result }
{
    let end = at + width;
    let mut m = n;
    for cell in (at..end).rev() {
        let last = (m % base) as usize;
        out[cell] = glyph(last);
        m /= base;
    }
    end
}

// How many digits a decimal has.
fn width_of(n: u64) -> usize
    ensures { (result ≡ Digits.width n) × (result ≤ 20) }
{
    match n.checked_ilog10() {
        Some(k) => k as usize + 1,
        None => 1,
    }
}

pub fn put_decimal(out: &mut [u8], at: usize, n: u64) -> usize
    requires { at + 20 ≤ length out.old }
    ensures { Prints 20 (show_decimal n) out at result }
{
    let width = width_of(n);
    put_digits(out, at, 10, width, n)
}

// The answer of a run, its steps and its stores.
fn put_counts(out: &mut [u8], at: usize, answer: u8, steps: u32, stores: u64) -> usize
    requires { at + 69 ≤ length out.old }
    ensures { Prints 69 (Shown.counts_text answer steps stores) out at result }
{
    let a = put_word(out, at, b"answer\t");
    let b = put_decimal(out, a, u64::from(answer));
    let c = put_word(out, b, b"\t");
    let d = put_decimal(out, c, u64::from(steps));
    let e = put_word(out, d, b"\t");
    put_decimal(out, e, stores)
}

// And the address that was turned down. The four numbers are those of the line, in its order.
pub fn put_answer(
    out: &mut [u8],
    at: usize,
    answer: u8,
    steps: u32,
    stores: u64,
    address: u16,
) -> usize
    requires { at + 75 ≤ length out.old }
    ensures { Prints 75 (Shown.answer_line answer steps stores address) out at result }
{
    let a = put_counts(out, at, answer, steps, stores);
    let b = put_word(out, a, b"\t");
    let c = put_digits(out, b, 16, 4, u64::from(address));
    put_word(out, c, b"\n")
}

// The program address.
pub fn put_pc(out: &mut [u8], at: usize, pc: u16) -> usize
    requires { at + 8 ≤ length out.old }
    ensures { Prints 8 (Shown.pc_line pc) out at result }
{
    let a = put_word(out, at, b"pc\t");
    let b = put_digits(out, a, 16, 4, u64::from(pc));
    put_word(out, b, b"\n")
}

// A cell that a run changed.
pub fn put_cell(out: &mut [u8], at: usize, part: Part, cell: u16, byte: u8) -> usize
    requires { at + 13 ≤ length out.old }
    ensures { Prints 13 (Shown.cell_line (part_of part) cell byte) out at result }
{
    let a = put_word(out, at, part.opening());
    let b = put_digits(out, a, 16, part.places(), u64::from(cell));
    let c = put_word(out, b, b"\t");
    let d = put_digits(out, c, 16, 2, u64::from(byte));
    put_word(out, d, b"\n")
}

// Each cell of a part that is not as it was, ascending.
pub fn put_changed(out: &mut [u8], from: usize, part: Part, was: &[u8], is: &[u8]) -> usize
    requires { (length is.now ≤ 65535) × (length is.now ≡ length was.now) × (from + 13 * length is.now ≤ length out.old) }
    ensures { Prints (13 * length is.now) (changed (part_of part) 0 was.now is.now) out from result }
{
    let mut past = from;
    for (i, (old, new)) in was.iter().zip(is).enumerate() {
        if old != new {
            let cell = i as u16;
            past = put_cell(out, past, part, cell, *new);
        }
    }
    past
}

// The number of a line that says nothing.
pub fn put_bad(out: &mut [u8], at: usize, line: u64) -> usize
    requires { at + 25 ≤ length out.old }
    ensures { Prints 25 (Shown.bad_line line) out at result }
{
    let a = put_word(out, at, b"bad\t");
    let b = put_decimal(out, a, line);
    put_word(out, b, b"\n")
}
