// Who wrote a cell.
ghost use Rattle.export.specs.Meaning.{stands};
ghost use Rattle.export.specs.Who.{SaysWho};

// Nothing but `out` is lent to be changed.
#[unsafe(no_mangle)]
pub extern "C" fn argolythe_who_wrote(
    image: &[u8],
    pad: &[u8],
    vdp: &[u8],
    reg: &[u8],
    journal: &[u32],
    used: usize,
    ring: u8,
    place: usize,
    writable: u8,
    memory: u8,
    at: u16,
    out: &mut [u64; 5],
) -> u8
    ensures { SaysWho memory at image pad vdp reg journal (stands 0 used ring place writable 0) result out }
{
    export::who::argolythe_who_wrote(
        image, pad, vdp, reg, journal, used, ring, place, writable, memory, at, out,
    )
}
