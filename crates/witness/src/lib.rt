// The demands, held by the calls themselves: each function is a call of bench, or a few in a row, and what it ensures is a demand.
// Nothing is known here of a call but its contract, so one that says less breaks this crate.
// The parameters are those of the calls, of which the theorems speak.
#![tactic(auto)]

pub mod dumps;
pub mod hosts;
pub mod who;

ghost use Rattle.std.specs.Prelude.{◌≡◌, true, ◌-◌, ◌<◌};
ghost use Rattle.rules.specs.Machine.{pick};
ghost use Rattle.rules.specs.Calls;
ghost use Rattle.rules.specs.Calls.{instruction};
ghost use Rattle.rules.specs.Demands.{instructions};
ghost use Rattle.machine.specs.Meaning.{◌&◌, Groups, Image, Journal, Pad, Regs, Vram};
ghost use Rattle.bench.specs.Meaning.{memory_of};
ghost use Rattle.bench.specs.Numbers.{of_reply, of_report, of_ticked};
ghost use Rattle.witness.specs.Demanded;
ghost use Rattle.witness.specs.Demanded.{Meets, Ticks, RepliesHome, TakenBack, BackAgain, LedOn, Along, forgetting};

use bench::at::At;
use bench::runs::Report;
use bench::ticks::Ticked;
use bench::viewer::Memory;
use bench::walk::Reply;

// A step meets demand 1 or demand 2.
pub fn step(
    image: &mut [u8],
    pad: &mut [u8],
    vram: &mut [u8],
    regs: &mut [u8],
    journal: &mut [u32],
    at: At,
) -> Reply
    ensures { Meets (Demanded.Step instruction) (Image image & Groups at.writable & Pad pad & Vram vram & Regs regs & Journal journal) at (of_reply result) }
{
    bench::walk::step(image, pad, vram, regs, journal, at)
}

// So does a tick, and what it sends is determined by the state before it.
pub fn tick(
    image: &mut [u8],
    pad: &mut [u8],
    vram: &mut [u8],
    regs: &mut [u8],
    journal: &mut [u32],
    at: At,
    output: &mut [u8],
) -> Ticked
    ensures { Meets (Ticks output) (Image image & Groups at.writable & Pad pad & Vram vram & Regs regs & Journal journal) at (of_ticked result) }
{
    bench::ticks::tick(image, pad, vram, regs, journal, at, output)
}

// A step back that is refused has its cause, and leaves all as it was.
pub fn step_back(
    image: &mut [u8],
    pad: &mut [u8],
    vram: &mut [u8],
    regs: &mut [u8],
    journal: &mut [u32],
    at: At,
) -> Reply
    ensures { Meets Demanded.Back (Image image & Groups at.writable & Pad pad & Vram vram & Regs regs & Journal journal) at (of_reply result) }
{
    bench::walk::step_back(image, pad, vram, regs, journal, at)
}

// A run ends after n accepted steps, or at the first that is refused.
pub fn run(
    image: &mut [u8],
    pad: &mut [u8],
    vram: &mut [u8],
    regs: &mut [u8],
    journal: &mut [u32],
    at: At,
    n: u32,
) -> Report
    ensures { Meets (Demanded.Run n) (Image image & Groups at.writable & Pad pad & Vram vram & Regs regs & Journal journal) at (of_report result) }
{
    bench::runs::run(image, pad, vram, regs, journal, at, n)
}

// A step and its step back: address and memories are as before, and so they are where the step is refused.
pub fn there_and_back(
    image: &mut [u8],
    pad: &mut [u8],
    vram: &mut [u8],
    regs: &mut [u8],
    journal: &mut [u32],
    at: At,
) -> Reply
    ensures { Meets RepliesHome (Image image & Groups at.writable & Pad pad & Vram vram & Regs regs & Journal journal) at (of_reply result) }
{
    let r = bench::walk::step(image, pad, vram, regs, journal, at);
    if r.refusal.is_some() {
        return r;
    }
    let there = r.at;
    bench::walk::step_back(image, pad, vram, regs, journal, there)
}

// How many accepted steps are not taken back, and where the machine stands.
#[derive(Clone, Copy)]
pub struct Kept {
    pub steps: u32,
    pub at: At,
}

// One step less where a step back was done.
fn fewer(steps: u32, done: bool) -> u32
    requires { done ≡ true → 0 < steps }
    ensures { result ≡ pick done (steps - 1) steps }
{
    if done { steps - 1 } else { steps }
}

// So many steps back: those that find no step kept are refused, and change nothing.
pub fn take_back(
    image: &mut [u8],
    pad: &mut [u8],
    vram: &mut [u8],
    regs: &mut [u8],
    journal: &mut [u32],
    at: At,
    n: u32,
) -> Kept
    ensures { TakenBack n (Image image & Groups at.writable & Pad pad & Vram vram & Regs regs & Journal journal) at result }
{
    let mut here = at;
    let mut steps = n;
    for _ in 0..n {
        let b = bench::walk::step_back(image, pad, vram, regs, journal, here);
        here = b.at;
        steps = fewer(steps, b.refusal.is_none());
    }
    Kept { steps, at: here }
}

// From an empty journal on a run, and as many steps back as it made steps: back to where the oldest kept step began. In a ring that may be far from the start,
// else it is the start.
pub fn run_and_back(
    image: &mut [u8],
    pad: &mut [u8],
    vram: &mut [u8],
    regs: &mut [u8],
    journal: &mut [u32],
    at: At,
    n: u32,
) -> Kept
    ensures { Meets (BackAgain instructions) (Image image & Groups at.writable & Pad pad & Vram vram & Regs regs & Journal journal) (forgetting at) result }
{
    let start = At { used: 0, ..at };
    let r = bench::runs::run(image, pad, vram, regs, journal, start, n);
    let there = r.at;
    take_back(image, pad, vram, regs, journal, there, r.steps)
}

// One call more: 0 stands for a step back, 1 for a tick, and any other n for a run of n - 1.
fn call(
    image: &mut [u8],
    pad: &mut [u8],
    vram: &mut [u8],
    regs: &mut [u8],
    journal: &mut [u32],
    at: At,
    n: u32,
    output: &mut [u8],
) -> At
    ensures { LedOn (Image image & Groups at.writable & Pad pad & Vram vram & Regs regs & Journal journal) at result }
{
    match n {
        0 => bench::walk::step_back(image, pad, vram, regs, journal, at).at,
        1 => bench::ticks::tick(image, pad, vram, regs, journal, at, output).at,
        _ => bench::runs::run(image, pad, vram, regs, journal, at, n - 1).at,
    }
}

// Any sequence of calls, from an empty journal on. What the ticks send goes to one output, one over the other.
pub fn make_calls(
    image: &mut [u8],
    pad: &mut [u8],
    vram: &mut [u8],
    regs: &mut [u8],
    journal: &mut [u32],
    at: At,
    calls: &[u32],
    output: &mut [u8],
) -> At
    ensures { Meets Along (Image image & Groups at.writable & Pad pad & Vram vram & Regs regs & Journal journal) (forgetting at) result }
{
    let mut here = At { used: 0, ..at };
    for n in calls {
        here = call(image, pad, vram, regs, journal, here, *n, output);
    }
    here
}

// What the viewer shows are the bytes that the rules show.
pub fn view<'a>(pad: &'a [u8], vram: &'a [u8], which: Memory, at: usize, len: usize) -> &'a [u8]
    ensures { result.now ≡ Calls.view (memory_of which) pad.now vram.now at len }
{
    bench::viewer::view(pad, vram, which, at, len)
}
