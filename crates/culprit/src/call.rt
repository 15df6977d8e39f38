// The public call: test 11, then the journal's own test, then who wrote the cell.
// The parts stand one by one, as in every call that C makes.
ghost use Rattle.std.specs.Prelude.{◌≡◌};
ghost use Rattle.culprit.specs.Culprit.{who_wrote};
ghost use Rattle.machine.specs.Meaning.{kind_of};
ghost use Rattle.culprit.specs.Meaning.{seen, wrote_of};

use crate::trail;
use crate::trail::{Refusal, Wrote};
use bench::at::At;
use bench::fits;
use machine::memory::Memory;

// Of any machine and any cell. Nothing is lent to be changed.
pub fn who_wrote(
    image: &[u8],
    pad: &[u8],
    vram: &[u8],
    regs: &[u8],
    journal: &[u32],
    at: At,
    which: Memory,
    cell: u16,
) -> Wrote
    ensures { wrote_of result ≡ who_wrote (kind_of which) cell (seen image pad vram regs journal at).mem }
{
    let fit = fits::all_fit(
        image.len(),
        pad.len(),
        vram.len(),
        regs.len(),
        journal.len(),
        at,
    );
    if !fit {
        return Err(Refusal::WrongLength);
    }
    trail::who(
        image,
        pad,
        vram,
        regs,
        journal,
        at.book(),
        at.writable,
        which,
        cell as usize,
    )
}
