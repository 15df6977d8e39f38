// Ticks of a sound list.
ghost use Rattle.std.specs.Prelude.{◌≡◌, ◌++◌, ◌≤◌, length, drop, replicate};
ghost use Rattle.machine.specs.Meaning.{◌&◌, Groups, Image, Journal, Pad, Regs, Vram};
ghost use Rattle.bench.specs.Numbers.{of_reply, of_ticked};
ghost use Rattle.bench.specs.Meaning.{Fit, Hears, fit_ticking, heard_as, ticking};
ghost use Rattle.bench.specs.Making.{Stands, TriesTick, Ticks};

use crate::at::At;
use crate::walk::Reply;
use crate::{fits, walk};
use machine::answers::Why;
use machine::state::Machine;
use sound::list::Output;

// What a tick leaves: as a step, and how many bytes it has sent, which stand in the output from its first byte on.
#[derive(Clone, Copy)]
pub struct Ticked {
    pub refusal: Option<Why>,
    pub stores: u64,
    pub at: At,
    pub sent: usize,
}

// A step's reply, and what was sent.
fn sending(r: Reply, sent: usize) -> Ticked
    ensures { of_ticked result ≡ heard_as (of_reply r) sent }
{
    Ticked {
        refusal: r.refusal,
        stores: r.stores,
        at: r.at,
        sent,
    }
}

// The first n bytes of an output become 0.
fn wipe(output: &mut [u8], n: usize)
    requires { n ≤ length output.old }
    ensures { output.new ≡ replicate n 0 ++ drop n output.old }
{
    output[..n].fill(0);
}

// The mark, and the tick's rule. The source flag that it leaves.
fn attempt(m: &mut Machine<'_>, output: &mut Output<'_>, source: bool) -> Result<bool, Why>
    ensures { TriesTick source m output result }
{
    let pc = m.pc;
    m.take_mark(pc, source)?;
    sound::tick::tick(m, output, source)
}

// What was sent stands in the output, or on a refusal 0 in its place.
fn tick_machine(m: &mut Machine<'_>, output: &mut Output<'_>, at: At) -> Ticked
    requires { Stands at m.old × (output.old.sent ≡ 0) }
    ensures { Ticks m output at result }
{
    let tried = attempt(m, output, at.source);
    let reply = walk::settle(m, at, tried);
    match tried {
        Ok(_) => sending(reply, output.sent),
        Err(_) => {
            wipe(output.bytes, output.sent);
            sending(reply, 0)
        }
    }
}

// With the parts whose lengths are known as arrays.
#[tactic(auto, unfolding(machine::specs::Meaning::kept))]
fn tick_arrays(
    image: &mut [u8],
    pad: &mut [u8; 256],
    vram: &mut [u8; 16384],
    regs: &mut [u8; 8],
    journal: &mut [u32],
    at: At,
    output: &mut [u8],
) -> Ticked
    requires { at.used ≤ length journal.old }
    ensures { Hears fit_ticking (Image image & Groups at.writable & Pad pad & Vram vram & Regs regs & Journal journal) output at result }
{
    let first = at.first(journal.len());
    let mut m = Machine {
        image,
        map: &mut [],
        pad,
        vram,
        regs,
        journal,
        first,
        older: at.used,
        place: at.place,
        used: at.count(),
        pc: at.pc,
        groups: at.writable,
    };
    let mut sending = Output {
        bytes: output,
        sent: 0,
    };
    tick_machine(&mut m, &mut sending, at)
}

// A tick past test 11.
fn fit_tick(
    image: &mut [u8],
    pad: &mut [u8],
    vram: &mut [u8],
    regs: &mut [u8],
    journal: &mut [u32],
    at: At,
    output: &mut [u8],
) -> Ticked
    requires { Fit pad vram regs journal at }
    ensures { Hears fit_ticking (Image image & Groups at.writable & Pad pad & Vram vram & Regs regs & Journal journal) output at result }
{
    tick_arrays(
        image,
        walk::array(pad),
        walk::array(vram),
        walk::array(regs),
        journal,
        at,
        output,
    )
}

// A tick, with an output of any length.
pub fn tick(
    image: &mut [u8],
    pad: &mut [u8],
    vram: &mut [u8],
    regs: &mut [u8],
    journal: &mut [u32],
    at: At,
    output: &mut [u8],
) -> Ticked
    ensures { Hears ticking (Image image & Groups at.writable & Pad pad & Vram vram & Regs regs & Journal journal) output at result }
{
    let fit = fits::all_fit(
        image.len(),
        pad.len(),
        vram.len(),
        regs.len(),
        journal.len(),
        at,
    );
    if !fit {
        return sending(walk::turned_down(Why::WrongLength, at), 0);
    }
    fit_tick(image, pad, vram, regs, journal, at, output)
}
