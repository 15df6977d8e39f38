// The public calls for C and Rust; `export_c` gives them their names in C. Nothing is asked of a caller but what the types say.
// Parts, flags and answers stand one by one and as numbers, since C takes them so.
#![tactic(auto)]

pub mod dump;
pub mod mapped;
pub mod ticks;
pub mod who;

ghost use Rattle.std.specs.Prelude.{◌≡◌, [], ◌∷◌, eqb, length};
ghost use Rattle.rules.specs.Machine.{pick};
ghost use Rattle.rules.specs.Calls.{run};
ghost use Rattle.machine.specs.Meaning.{◌&◌, Groups, Image, Journal, Pad, Regs, Vram};
ghost use Rattle.export.specs.Meaning.{Hears, one_step, one_back, Shows, shown};

use bench::answers;
use bench::at::At;
use bench::viewer::Memory;

// ---- steps

// The seven numbers in their order.
pub(crate) fn tell(out: &mut [u64; 7], at: At, steps: u64, stores: u64, address: u16)
    ensures { out.new ≡ at.pc ∷ at.used ∷ steps ∷ stores ∷ address ∷ at.place ∷ pick at.source 1 0 ∷ [] }
{
    *out = [
        at.pc as u64,
        at.used as u64,
        steps,
        stores,
        address as u64,
        at.place as u64,
        u64::from(at.source),
    ];
}

// A call that was done is one step.
pub(crate) fn steps_of(answer: u8) -> u64
    ensures { result ≡ pick (eqb answer 0) 1 0 }
{
    if answer == 0 { 1 } else { 0 }
}

// A run of one step: one machine code serves both.
pub fn argolythe_step(
    image: &mut [u8],
    pad: &mut [u8],
    vdp: &mut [u8],
    reg: &mut [u8],
    journal: &mut [u32],
    pc: u16,
    used: usize,
    ring: u8,
    place: usize,
    writable: u8,
    source: u8,
    out: &mut [u64; 7],
) -> u8
    ensures { Hears one_step (Image image & Groups writable & Pad pad & Vram vdp & Regs reg & Journal journal) pc used ring place writable source result out }
{
    argolythe_run(
        image, pad, vdp, reg, journal, pc, used, ring, place, writable, source, 1, out,
    )
}

// Up to n steps. The address is written out in each call: through a function that makes it, what `bench` ensures of its parts could not be rewritten.
pub fn argolythe_run(
    image: &mut [u8],
    pad: &mut [u8],
    vdp: &mut [u8],
    reg: &mut [u8],
    journal: &mut [u32],
    pc: u16,
    used: usize,
    ring: u8,
    place: usize,
    writable: u8,
    source: u8,
    n: u32,
    out: &mut [u64; 7],
) -> u8
    ensures { Hears (run n) (Image image & Groups writable & Pad pad & Vram vdp & Regs reg & Journal journal) pc used ring place writable source result out }
{
    let start = At {
        pc,
        used,
        ring: ring != 0,
        place,
        writable,
        source: source != 0,
    };
    let r = bench::runs::run(image, pad, vdp, reg, journal, start, n);
    tell(
        out,
        r.at,
        r.steps as u64,
        r.stores,
        answers::address(r.refusal),
    );
    answers::number(r.refusal)
}

// One step back: `steps` says whether one was taken back, and no stores are counted.
pub fn argolythe_step_back(
    image: &mut [u8],
    pad: &mut [u8],
    vdp: &mut [u8],
    reg: &mut [u8],
    journal: &mut [u32],
    pc: u16,
    used: usize,
    ring: u8,
    place: usize,
    writable: u8,
    source: u8,
    out: &mut [u64; 7],
) -> u8
    ensures { Hears one_back (Image image & Groups writable & Pad pad & Vram vdp & Regs reg & Journal journal) pc used ring place writable source result out }
{
    let start = At {
        pc,
        used,
        ring: ring != 0,
        place,
        writable,
        source: source != 0,
    };
    let r = bench::walk::step_back(image, pad, vdp, reg, journal, start);
    let answer = answers::number(r.refusal);
    tell(
        out,
        r.at,
        steps_of(answer),
        r.stores,
        answers::address(r.refusal),
    );
    answer
}

// ---- the viewer

// How many bytes the viewer shows of a memory.
fn seen<'a>(pad: &'a [u8], vdp: &'a [u8], memory: u8, at: usize, len: usize) -> usize
    ensures { result ≡ length (shown memory pad.now vdp.now at len) }
{
    match memory {
        0 => bench::viewer::view(pad, vdp, Memory::Cpu, at, len).len(),
        1 => bench::viewer::view(pad, vdp, Memory::Vdp, at, len).len(),
        _ => 0,
    }
}

// A length, 0 where nothing is shown, and an offset into the caller's own bytes.
pub fn argolythe_view<'a>(
    pad: &'a [u8],
    vdp: &'a [u8],
    memory: u8,
    at: usize,
    len: usize,
    offset: &mut usize,
) -> usize
    ensures { Shows memory pad.now vdp.now at len offset.new result }
{
    let n = seen(pad, vdp, memory, at, len);
    *offset = if n == 0 { 0 } else { at };
    n
}
