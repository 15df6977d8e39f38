// Dumps in Intel HEX for C and Rust.
ghost use Rattle.export.specs.Dumps.{ReadsIn, WritesIn};

use intelhex::dump::{read_hex, write_hex};

// A text read into an image; `line` is the line at fault, 0 where there is none.
pub fn argolythe_read_hex(text: &[u8], image: &mut [u8], line: &mut usize) -> u8
    ensures { ReadsIn text image line result }
{
    match read_hex(text, image) {
        Ok(()) => {
            *line = 0;
            0
        }
        Err(error) => {
            *line = error.line();
            error.answer()
        }
    }
}

// An image written to an output; `count` is how many bytes the text has, 0 where there is none.
pub fn argolythe_write_hex(image: &[u8], out: &mut [u8], count: &mut usize) -> u8
    ensures { WritesIn image out count result }
{
    match write_hex(image, out) {
        Ok(written) => {
            *count = written;
            0
        }
        Err(error) => {
            *count = 0;
            error.answer()
        }
    }
}
