// Who wrote a cell: after any calls from an empty journal the reason is the true one.
ghost use Rattle.machine.specs.Meaning.{◌&◌, kind_of, Groups, Image, Journal, Pad, Regs, Vram};
ghost use Rattle.culprit.specs.Meaning.{seen};
ghost use Rattle.witness.specs.Demanded.{Meets, forgetting};
ghost use Rattle.witness.specs.Blamed.{Blames, BlamesAfter};

use bench::at::At;
use culprit::trail::Wrote;
use machine::memory::Memory;

// Of the machine as it stands.
pub fn who_wrote(
    image: &[u8],
    pad: &[u8],
    vram: &[u8],
    regs: &[u8],
    journal: &[u32],
    at: At,
    which: Memory,
    cell: u16,
) -> Wrote
    ensures { Blames (kind_of which) cell (seen image pad vram regs journal at) result }
{
    culprit::call::who_wrote(image, pad, vram, regs, journal, at, which, cell)
}

// After a sequence of calls.
pub fn wrote_after(
    image: &mut [u8],
    pad: &mut [u8],
    vram: &mut [u8],
    regs: &mut [u8],
    journal: &mut [u32],
    at: At,
    calls: &[u32],
    output: &mut [u8],
    which: Memory,
    cell: u16,
) -> Wrote
    ensures { Meets (BlamesAfter (kind_of which) cell) (Image image & Groups at.writable & Pad pad & Vram vram & Regs regs & Journal journal) (forgetting at) result }
{
    let here = crate::make_calls(image, pad, vram, regs, journal, at, calls, output);
    who_wrote(image, pad, vram, regs, journal, here, which, cell)
}
