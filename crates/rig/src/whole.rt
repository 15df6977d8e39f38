// An input read whole, and what is made of it written.
ghost use Rattle.std.specs.Prelude.{◌≤◌, length, IfOk};

use crate::{gather, show};
use desk::show::write_text;
use std::io;
use std::io::{Read, Write};

// Reads until a buffer is full or the input ends: how many bytes are at its front. A loop, since `read_exact` would not say how many there were.
fn read_full<R: Read>(input: &mut R, text: &mut [u8]) -> io::Result<usize>
    ensures { IfOk result (λ n. n ≤ length text.new) }
{
    let mut have = 0;
    while have < text.len() {
        let got = input.read(&mut text[have..])?;
        if got == 0 {
            break;
        }
        have += got;
    }
    Ok(have)
}

// A text that fits in the buffer with a byte to spare is handed to `write`: the byte is read to see that a text has more.
// The buffer is a parameter and an array: made here, or lent as a slice, its zeros took more stack than the check has.
fn answer<R: Read, W: Write, F>(
    input: &mut R,
    output: &mut W,
    text: &mut [u8; 524289],
    write: F,
) -> io::Result<()>
where
    F: FnOnce(&[u8], &mut W) -> io::Result<()>,
    requires { F.IsAlwaysCallable write }
{
    let have = read_full(input, text)?;
    if have == text.len() {
        return output.write_all(b"text too long: more than 524288 bytes\n");
    }
    write(&text[..have], output)
}

// A dump, shown: one that names each byte of the image by a record of its own has less than 524,288 bytes. The error is that of a read or a write
// that failed.
pub fn show_all<R: Read, W: Write>(input: &mut R, output: &mut W) -> io::Result<()> {
    answer(input, output, &mut [0; 524289], |text, output| {
        let mut out = [0; 88064];
        let count = show::show(text, &mut [0; 32768], &mut out);
        write_text(output, &out, count)
    })
}

// A bench file, dumped. The error is that of a read or a write that failed.
pub fn dump_all<R: Read, W: Write>(input: &mut R, output: &mut W) -> io::Result<()> {
    answer(input, output, &mut [0; 524289], |text, output| {
        let mut out = [0; 90124];
        let count = gather::dump(text, &mut [0; 32768], &mut out);
        write_text(output, &out, count)
    })
}
