// The text of an image, record by record.
ghost use Rattle.std.specs.Prelude.{◌≡◌, ◌+◌, ◌*◌, ◌/◌, ◌%◌, ◌<◌, ◌≤◌, length};
ghost use Rattle.lines.specs.Shown.{Prints};
ghost use Rattle.intelhex.specs.Dump;
ghost use Rattle.intelhex.specs.Records;

use lines::print::{put_digits, put_word};

// The sum of some bytes, modulo 256.
fn sum_of(bytes: &[u8]) -> u8
    ensures { result ≡ Records.total bytes.now % 256 }
{
    let mut t: u8 = 0;
    for b in bytes {
        t = t.wrapping_add(*b);
    }
    t
}

// Two digits for each byte.
pub fn put_pairs(out: &mut [u8], at: usize, bytes: &[u8]) -> usize
    requires { at + 2 * length bytes.now ≤ length out.old }
    ensures { Prints (2 * length bytes.now) (Dump.show_bytes bytes.now) out at result }
{
    let mut past = at;
    for b in bytes {
        past = put_digits(out, past, 16, 2, u64::from(*b));
    }
    past
}

// A record of 16 bytes.
fn put_row(out: &mut [u8], at: usize, address: usize, bytes: &[u8]) -> usize
    requires { (at + 44 ≤ length out.old) × (address < 65536) × (length bytes.now ≡ 16) }
    ensures { Prints 44 (Dump.row address bytes.now) out at result }
{
    let a = put_word(out, at, b":10");
    let b = put_digits(out, a, 16, 4, address as u64);
    let c = put_word(out, b, b"00");
    let d = put_pairs(out, c, bytes);
    let s = u64::from(sum_of(bytes));
    let high = (address / 256) as u64;
    let low = (address % 256) as u64;
    let all = 16 + high + low + s;
    let left = 256 - all % 256;
    let check = left % 256;
    let e = put_digits(out, d, 16, 2, check);
    put_word(out, e, b"\n")
}

// Every 16 bytes, in order.
pub fn put_rows(image: &[u8], out: &mut [u8]) -> usize
    requires { (length image.now ≤ 65536) × (length image.now / 16 * 44 ≤ length out.old) }
    ensures { Prints (length image.now / 16 * 44) (Dump.rows (length image.now / 16) 0 image.now) out 0 result }
{
    let mut past = 0;
    for (k, bytes) in image.chunks_exact(16).enumerate() {
        let from = k * 16;
        past = put_row(out, past, from, bytes);
    }
    past
}
