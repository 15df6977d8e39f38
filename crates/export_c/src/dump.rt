// Dumps in Intel HEX.
ghost use Rattle.export.specs.Dumps.{ReadsIn, WritesIn};

// A text read into an image; `line` is the line at fault, 0 where there is none.
#[unsafe(no_mangle)]
pub extern "C" fn argolythe_read_hex(text: &[u8], image: &mut [u8], line: &mut usize) -> u8
    ensures { ReadsIn text image line result }
{
    export::dump::argolythe_read_hex(text, image, line)
}

// An image written to an output; `count` is how many bytes the text has, 0 where there is none.
#[unsafe(no_mangle)]
pub extern "C" fn argolythe_write_hex(image: &[u8], out: &mut [u8], count: &mut usize) -> u8
    ensures { WritesIn image out count result }
{
    export::dump::argolythe_write_hex(image, out, count)
}
