// The calls under their names in C, which include/argolythe.h declares: each is the call of that name in `export`, whose clause stands here again.
// The parameters are C's, one by one.
#![tactic(auto)]

pub mod dump;
pub mod mapped;
pub mod ticks;
pub mod who;

ghost use Rattle.rules.specs.Calls.{run};
ghost use Rattle.machine.specs.Meaning.{◌&◌, Groups, Image, Journal, Pad, Regs, Vram};
ghost use Rattle.export.specs.Meaning.{Hears, one_step, one_back, Shows};

// A run of one step: one machine code serves both.
#[unsafe(no_mangle)]
pub extern "C" fn argolythe_step(
    image: &mut [u8],
    pad: &mut [u8],
    vdp: &mut [u8],
    reg: &mut [u8],
    journal: &mut [u32],
    pc: u16,
    used: usize,
    ring: u8,
    place: usize,
    writable: u8,
    source: u8,
    out: &mut [u64; 7],
) -> u8
    ensures { Hears one_step (Image image & Groups writable & Pad pad & Vram vdp & Regs reg & Journal journal) pc used ring place writable source result out }
{
    export::argolythe_step(
        image, pad, vdp, reg, journal, pc, used, ring, place, writable, source, out,
    )
}

// Up to n steps.
#[unsafe(no_mangle)]
pub extern "C" fn argolythe_run(
    image: &mut [u8],
    pad: &mut [u8],
    vdp: &mut [u8],
    reg: &mut [u8],
    journal: &mut [u32],
    pc: u16,
    used: usize,
    ring: u8,
    place: usize,
    writable: u8,
    source: u8,
    n: u32,
    out: &mut [u64; 7],
) -> u8
    ensures { Hears (run n) (Image image & Groups writable & Pad pad & Vram vdp & Regs reg & Journal journal) pc used ring place writable source result out }
{
    export::argolythe_run(
        image, pad, vdp, reg, journal, pc, used, ring, place, writable, source, n, out,
    )
}

// One step back: `steps` says whether one was taken back, and no stores are counted.
#[unsafe(no_mangle)]
pub extern "C" fn argolythe_step_back(
    image: &mut [u8],
    pad: &mut [u8],
    vdp: &mut [u8],
    reg: &mut [u8],
    journal: &mut [u32],
    pc: u16,
    used: usize,
    ring: u8,
    place: usize,
    writable: u8,
    source: u8,
    out: &mut [u64; 7],
) -> u8
    ensures { Hears one_back (Image image & Groups writable & Pad pad & Vram vdp & Regs reg & Journal journal) pc used ring place writable source result out }
{
    export::argolythe_step_back(
        image, pad, vdp, reg, journal, pc, used, ring, place, writable, source, out,
    )
}

// A length, 0 where nothing is shown, and an offset into the caller's own bytes.
#[unsafe(no_mangle)]
pub extern "C" fn argolythe_view<'a>(
    pad: &'a [u8],
    vdp: &'a [u8],
    memory: u8,
    at: usize,
    len: usize,
    offset: &mut usize,
) -> usize
    ensures { Shows memory pad.now vdp.now at len offset.new result }
{
    export::argolythe_view(pad, vdp, memory, at, len, offset)
}
