// A dump as `grom` lines, or why it is refused.
ghost use Rattle.std.specs.Prelude.{◌≡◌, ◌+◌, ◌≤◌, ◌<◌, length};
ghost use Rattle.lines.specs.Shown.{Prints, Front};
ghost use Rattle.intelhex.specs.Meaning.{fault_of};
ghost use Rattle.rig.specs.Rig;

use intelhex::dump::{ReadError, read_hex};
use intelhex::flags::idle;
use intelhex::rows::put_pairs;
use lines::print::{put_decimal, put_digits, put_word};

// The line for 16 bytes at an address.
fn put_grom(out: &mut [u8], at: usize, address: usize, bytes: &[u8]) -> usize
    requires { (at + 43 ≤ length out.old) × (address < 65536) × (length bytes.now ≡ 16) }
    ensures { Prints 43 (Rig.grom_line address bytes.now) out at result }
{
    let a = put_word(out, at, b"grom\t");
    let b = put_digits(out, a, 16, 4, address as u64);
    let c = put_word(out, b, b"\t");
    let d = put_pairs(out, c, bytes);
    put_word(out, d, b"\n")
}

// A line for every 16 bytes that are not all 0.
fn put_image(image: &[u8], out: &mut [u8]) -> usize
    requires { (length image.now ≡ 32768) × (88064 ≤ length out.old) }
    ensures { Prints 88064 (Rig.grom_lines 2048 0 image.now) out 0 result }
{
    let mut past = 0;
    for (k, bytes) in image.chunks_exact(16).enumerate() {
        let address = k * 16;
        if !idle(bytes) {
            past = put_grom(out, past, address, bytes);
        }
    }
    past
}

// What a refusal means. A wrong length is none of the rig's.
#[tactic(auto, unfolding(crate::specs::Rig::meaning))]
fn meaning(why: ReadError) -> &'static [u8]
    ensures says { result.now ≡ Rig.meaning (fault_of why).answer }
    ensures fits { length result.now ≤ 90 }
{
    match why {
        ReadError::BadRecord(_) => {
            b"bad record: form, sum, type, an address above >7FFF, or text after the end record"
        }
        ReadError::NamedTwice(_) => b"address named twice",
        ReadError::NoEnd(_) | ReadError::WrongLength => b"no end record",
    }
}

// The answer, the line at fault, and what that means.
fn put_refusal(out: &mut [u8], why: ReadError) -> usize
    requires { 150 ≤ length out.old }
    ensures { Prints 150 (Rig.refusal (fault_of why).answer (fault_of why).line) out 0 result }
{
    let a = put_word(out, 0, b"answer\t");
    let b = put_decimal(out, a, u64::from(why.answer()));
    let c = put_word(out, b, b"\tline\t");
    let d = put_decimal(out, c, why.line() as u64);
    let e = put_word(out, d, b"\t");
    let f = put_word(out, e, meaning(why));
    put_word(out, f, b"\n")
}

// A text of records, shown to the operator: so many bytes at the front of a lent buffer, since nothing is allocated.
pub fn show(text: &[u8], image: &mut [u8; 32768], out: &mut [u8; 88064]) -> usize
    ensures { Front (Rig.shown text.now) out.new result }
{
    match read_hex(text, image) {
        Ok(()) => put_image(image, out),
        Err(why) => put_refusal(out, why),
    }
}
