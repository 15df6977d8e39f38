// A run that says which bytes of the image it reads, for C and Rust.
ghost use Rattle.machine.specs.Meaning.{◌&◌, Groups, Image, Journal, Pad, Regs, Vram};
ghost use Rattle.export.specs.Mapped.{HearsMapped};

use bench::answers;
use bench::at::At;

// As a run: each byte that it reads gets 1 in a map of one byte for each of the image's.
pub fn argolythe_run_mapped(
    image: &mut [u8],
    map: &mut [u8],
    pad: &mut [u8],
    vdp: &mut [u8],
    reg: &mut [u8],
    journal: &mut [u32],
    pc: u16,
    used: usize,
    ring: u8,
    place: usize,
    writable: u8,
    source: u8,
    n: u32,
    out: &mut [u64; 7],
) -> u8
    ensures { HearsMapped n (Image image & Groups writable & Pad pad & Vram vdp & Regs reg & Journal journal) map pc used ring place writable source result out }
{
    let start = At {
        pc,
        used,
        ring: ring != 0,
        place,
        writable,
        source: source != 0,
    };
    let r = bench::runs::run_mapped(image, map, pad, vdp, reg, journal, start, n);
    crate::tell(
        out,
        r.at,
        r.steps as u64,
        r.stores,
        answers::address(r.refusal),
    );
    answers::number(r.refusal)
}
