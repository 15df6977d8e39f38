// Dumps for a host in C: what a text gives is what its records say, and what is written is the image's text.
ghost use Rattle.witness.specs.Dumped.{ReadAs, WrittenAs};

// The answer, the line and every byte of the image.
pub fn read_hex(text: &[u8], image: &mut [u8], line: &mut usize) -> u8
    ensures { ReadAs text image line result }
{
    export::dump::argolythe_read_hex(text, image, line)
}

// The answer, the count and every byte of the output.
pub fn write_hex(image: &[u8], out: &mut [u8], count: &mut usize) -> u8
    ensures { WrittenAs image out count result }
{
    export::dump::argolythe_write_hex(image, out, count)
}
