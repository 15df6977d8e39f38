// Ticks of a sound list, for C and Rust.
ghost use Rattle.machine.specs.Meaning.{◌&◌, Groups, Image, Journal, Pad, Regs, Vram};
ghost use Rattle.export.specs.Ticks.{HearsTick};

use bench::answers;
use bench::at::At;

// One tick: `steps` says whether it was done, and `sent` how many bytes stand in the output.
pub fn argolythe_tick(
    image: &mut [u8],
    pad: &mut [u8],
    vdp: &mut [u8],
    reg: &mut [u8],
    journal: &mut [u32],
    pc: u16,
    used: usize,
    ring: u8,
    place: usize,
    writable: u8,
    source: u8,
    output: &mut [u8],
    sent: &mut usize,
    out: &mut [u64; 7],
) -> u8
    ensures { HearsTick (Image image & Groups writable & Pad pad & Vram vdp & Regs reg & Journal journal) pc used ring place writable source output result sent out }
{
    let start = At {
        pc,
        used,
        ring: ring != 0,
        place,
        writable,
        source: source != 0,
    };
    let r = bench::ticks::tick(image, pad, vdp, reg, journal, start, output);
    *sent = r.sent;
    let answer = answers::number(r.refusal);
    let steps = crate::steps_of(answer);
    crate::tell(out, r.at, steps, r.stores, answers::address(r.refusal));
    answer
}
