// The same for a host in C: what its calls hand back meets the demands that the calls of bench meet.
ghost use Rattle.machine.specs.Meaning.{◌&◌, Groups, Image, Journal, Pad, Regs, Vram};
ghost use Rattle.rules.specs.Calls.{instruction};
ghost use Rattle.witness.specs.Demanded.{Step, Tick, Back, Run};
ghost use Rattle.witness.specs.Hosted.{RepliesIn, ReportsIn, Views};
ghost use Rattle.witness.specs.Blamed.{BlamesIn};
ghost use Rattle.culprit.specs.Meaning.{seen};

// A step meets demand 1 or demand 2.
pub fn step(
    image: &mut [u8],
    pad: &mut [u8],
    vdp: &mut [u8],
    reg: &mut [u8],
    journal: &mut [u32],
    pc: u16,
    used: usize,
    ring: u8,
    place: usize,
    writable: u8,
    source: u8,
    out: &mut [u64; 7],
) -> u8
    ensures { RepliesIn (Step instruction) (Image image & Groups writable & Pad pad & Vram vdp & Regs reg & Journal journal) pc used ring place writable source result out }
{
    export::argolythe_step(
        image, pad, vdp, reg, journal, pc, used, ring, place, writable, source, out,
    )
}

// So does a tick, and what it sends is determined by the state before it.
pub fn tick(
    image: &mut [u8],
    pad: &mut [u8],
    vdp: &mut [u8],
    reg: &mut [u8],
    journal: &mut [u32],
    pc: u16,
    used: usize,
    ring: u8,
    place: usize,
    writable: u8,
    source: u8,
    output: &mut [u8],
    sent: &mut usize,
    out: &mut [u64; 7],
) -> u8
    ensures { RepliesIn (Tick output.old output.new sent.new)
        (Image image & Groups writable & Pad pad & Vram vdp & Regs reg & Journal journal) pc used ring place writable source result out }
{
    export::ticks::argolythe_tick(
        image, pad, vdp, reg, journal, pc, used, ring, place, writable, source, output, sent, out,
    )
}

// A step back that is refused has its cause, and leaves all as it was.
pub fn step_back(
    image: &mut [u8],
    pad: &mut [u8],
    vdp: &mut [u8],
    reg: &mut [u8],
    journal: &mut [u32],
    pc: u16,
    used: usize,
    ring: u8,
    place: usize,
    writable: u8,
    source: u8,
    out: &mut [u64; 7],
) -> u8
    ensures { RepliesIn Back (Image image & Groups writable & Pad pad & Vram vdp & Regs reg & Journal journal) pc used ring place writable source result out }
{
    export::argolythe_step_back(
        image, pad, vdp, reg, journal, pc, used, ring, place, writable, source, out,
    )
}

// A run ends after n accepted steps, or at the first that is refused.
pub fn run(
    image: &mut [u8],
    pad: &mut [u8],
    vdp: &mut [u8],
    reg: &mut [u8],
    journal: &mut [u32],
    pc: u16,
    used: usize,
    ring: u8,
    place: usize,
    writable: u8,
    source: u8,
    n: u32,
    out: &mut [u64; 7],
) -> u8
    ensures { ReportsIn (Run n) (Image image & Groups writable & Pad pad & Vram vdp & Regs reg & Journal journal) pc used ring place writable source result out }
{
    export::argolythe_run(
        image, pad, vdp, reg, journal, pc, used, ring, place, writable, source, n, out,
    )
}

// What is named by the offset and the length are the bytes that the rules show.
pub fn view<'a>(
    pad: &'a [u8],
    vdp: &'a [u8],
    memory: u8,
    at: usize,
    len: usize,
    offset: &mut usize,
) -> usize
    ensures { Views memory pad vdp at len offset result }
{
    export::argolythe_view(pad, vdp, memory, at, len, offset)
}

// Who wrote a cell: the numbers are those of the true reason.
pub fn who_wrote(
    image: &[u8],
    pad: &[u8],
    vdp: &[u8],
    reg: &[u8],
    journal: &[u32],
    used: usize,
    ring: u8,
    place: usize,
    writable: u8,
    memory: u8,
    at: u16,
    out: &mut [u64; 5],
) -> u8
    ensures { BlamesIn memory at (seen image pad vdp reg journal) used ring place writable result out }
{
    export::who::argolythe_who_wrote(
        image, pad, vdp, reg, journal, used, ring, place, writable, memory, at, out,
    )
}
