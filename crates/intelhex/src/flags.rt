// Which addresses were named: a row of flags, one for each byte of the image.
ghost use Rattle.std.specs.Prelude.{◌≡◌, ◌+◌, ◌<◌};
ghost use Rattle.intelhex.specs.Dump;
ghost use Rattle.intelhex.specs.Meaning.{Marks, mark_of};

// Why the addresses of a record can't be named: one lies past the image, or was named before.
#[derive(Clone, Copy, PartialEq, Eq, Debug)]
pub enum Clash {
    Beyond,
    Twice,
}

// Whether none of them is set.
pub fn idle(flags: &[u8]) -> bool
    ensures { result ≡ Dump.idle flags.now }
{
    flags.iter().all(|f| *f == 0)
}

// The addresses of a record named, from one on so many as it has bytes, where they lie in the image and none was named before.
pub fn mark(flags: &mut [u8], at: usize, count: usize) -> Result<(), Clash>
    requires { (at < 65536) × (count < 256) }
    ensures { Marks flags.old at count (mark_of result) flags.new }
{
    if count == 0 {
        return Ok(());
    }
    let end = at + count;
    if flags.len() < end {
        return Err(Clash::Beyond);
    }
    if !idle(&flags[at..end]) {
        return Err(Clash::Twice);
    }
    flags[at..end].fill(1);
    Ok(())
}
