// Ticks of a sound list.
ghost use Rattle.machine.specs.Meaning.{◌&◌, Groups, Image, Journal, Pad, Regs, Vram};
ghost use Rattle.export.specs.Ticks.{HearsTick};

// One tick: `steps` says whether it was done, and `sent` how many bytes stand in the output.
#[unsafe(no_mangle)]
pub extern "C" fn argolythe_tick(
    image: &mut [u8],
    pad: &mut [u8],
    vdp: &mut [u8],
    reg: &mut [u8],
    journal: &mut [u32],
    pc: u16,
    used: usize,
    ring: u8,
    place: usize,
    writable: u8,
    source: u8,
    output: &mut [u8],
    sent: &mut usize,
    out: &mut [u64; 7],
) -> u8
    ensures { HearsTick (Image image & Groups writable & Pad pad & Vram vdp & Regs reg & Journal journal) pc used ring place writable source output result sent out }
{
    export::ticks::argolythe_tick(
        image, pad, vdp, reg, journal, pc, used, ring, place, writable, source, output, sent, out,
    )
}
