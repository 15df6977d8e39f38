// Bytes to VDP RAM, as many as surely go: in loops that ask nothing, each byte beside its journal word.
ghost use Rattle.std.specs.Prelude.{◌≡◌, Ok, None, ◌-◌, ◌+◌, ◌≤◌, length};
ghost use Rattle.rules.specs.Machine.{vdp};
ghost use Rattle.rules.specs.Operands.{cell};
ghost use Rattle.rules.specs.Instructions.{move_bytes, fill};
ghost use Rattle.machine.specs.Meaning.{Does};
ghost use Rattle.block.specs.Meaning.{end_of, clear, IsSure, screen, stored, outside, inside, always};

use crate::ends::End;
use machine::cells;
use machine::memory::Memory;
use machine::state::Machine;
use number::words::pack;

// From elsewhere. The source stays, but is lent as the rest is: of one machine no part is lent to be read while others are lent to be written.
#[tactic(auto, using(machine::proofs::Laws::looping), unfolding(crate::specs::Meaning::stored))]
fn copy(
    from: &mut [u8],
    vram: &mut [u8; 16384],
    journal: &mut [u32],
    used: usize,
    n: usize,
    a: usize,
    t: usize,
)
    requires { (n ≤ length from.old - a) × (n ≤ 16384 - t) × (n ≤ length journal.old - used) }
    ensures done { screen vram.new journal.new (used + n) ≡ stored n 0 (outside from.old a) t (screen vram.old journal.old used) }
    ensures same { (from.new ≡ from.old) × (length journal.new ≡ length journal.old) }
{
    for k in 0..n {
        let at = t + k;
        journal[used + k] = pack(1, at as u32, vram[at]);
        vram[at] = from[a + k];
    }
}

fn copy_pad(
    pad: &mut [u8; 256],
    vram: &mut [u8; 16384],
    journal: &mut [u32],
    used: usize,
    n: usize,
    a: usize,
    t: usize,
)
    requires { (n ≤ 0xE0 - a) × (n ≤ 16384 - t) × (n ≤ length journal.old - used) }
    ensures done { screen vram.new journal.new (used + n) ≡ stored n 0 (outside pad.old a) t (screen vram.old journal.old used) }
    ensures same { (pad.new ≡ pad.old) × (length journal.new ≡ length journal.old) }
{
    copy(&mut pad[..], vram, journal, used, n, a, t);
}

// From VDP RAM itself: where the ends overlap, what was stored is read.
#[tactic(auto, using(machine::proofs::Laws::looping), unfolding(crate::specs::Meaning::stored))]
fn copy_within(
    vram: &mut [u8; 16384],
    journal: &mut [u32],
    used: usize,
    n: usize,
    a: usize,
    t: usize,
)
    requires { (n ≤ 16384 - a) × (n ≤ 16384 - t) × (n ≤ length journal.old - used) }
    ensures done { screen vram.new journal.new (used + n) ≡ stored n 0 (inside a) t (screen vram.old journal.old used) }
    ensures same { length journal.new ≡ length journal.old }
{
    for k in 0..n {
        let at = t + k;
        journal[used + k] = pack(1, at as u32, vram[at]);
        vram[at] = vram[a + k];
    }
}

// How many cells from the first on can be read with no mark, and with no address that wraps.
fn clear(m: &Machine<'_>, memory: Memory) -> usize
    ensures { result ≡ clear memory m.now }
{
    match memory {
        Memory::Cpu => cells::PAD_REACH,
        Memory::Vdp => cells::VDP_REACH,
        Memory::Register => 0,
        Memory::Grom => {
            if m.map.is_empty() {
                m.image.len().min(65536)
            } else {
                0
            }
        }
    }
}

// How many of n bytes surely go, by what is left at either end and in a plain journal.
fn sure(m: &Machine<'_>, n: u16, from: End, t: u16) -> usize
    ensures { (result ≤ n) × IsSure result from t m.now }
{
    let source = clear(m, from.memory).saturating_sub(from.at as usize);
    let target = cells::VDP_REACH.saturating_sub(t as usize);
    let room = m.journal.len().saturating_sub(m.used);
    (n as usize).min(source).min(target).min(room)
}

// All n of them, which surely go.
#[tactic(auto, unfolding(machine::specs::Meaning::rest_of, machine::specs::Meaning::kept))]
fn copy_all(m: &mut Machine<'_>, n: usize, from: End, t: u16)
    requires { (m.old.first ≡ None) × IsSure n from t m.old }
    ensures { Does (move_bytes n 0 (end_of from) (cell vdp t)) m (Ok tt) }
{
    let (a, t) = (from.at as usize, t as usize);
    let used = m.used;
    m.used += n;
    match from.memory {
        Memory::Cpu => copy_pad(m.pad, m.vram, m.journal, used, n, a, t),
        Memory::Vdp => copy_within(m.vram, m.journal, used, n, a, t),
        Memory::Register => {}
        Memory::Grom => copy(m.image, m.vram, m.journal, used, n, a, t),
    }
}

// As many of n bytes as surely go to VDP RAM; gives how many.
#[tactic(auto, using(machine::proofs::Laws::steps), unfolding(rules::specs::Instructions::move_bytes))]
pub(crate) fn copy_sure(m: &mut Machine<'_>, n: u16, from: End, to: End) -> u16
    ensures few { result ≤ n }
    ensures does { Does (move_bytes result 0 (end_of from) (end_of to)) m (Ok tt) }
{
    match (to.memory, m.first) {
        (Memory::Vdp, None) => {
            let n = sure(m, n, from, to.at);
            copy_all(m, n, from, to.at);
            n as u16
        }
        _ => 0,
    }
}

// One byte to them all.
#[tactic(auto, using(machine::proofs::Laws::looping), unfolding(crate::specs::Meaning::stored))]
fn spread(vram: &mut [u8; 16384], journal: &mut [u32], used: usize, n: usize, t: usize, b: u8)
    requires { (n ≤ 16384 - t) × (n ≤ length journal.old - used) }
    ensures done { screen vram.new journal.new (used + n) ≡ stored n 0 (always b) t (screen vram.old journal.old used) }
    ensures same { length journal.new ≡ length journal.old }
{
    for k in 0..n {
        let at = t + k;
        journal[used + k] = pack(1, at as u32, vram[at]);
        vram[at] = b;
    }
}

// A byte into as many of n cells as it surely goes to; gives how many.
#[tactic(auto, using(machine::proofs::Laws::steps), unfolding(rules::specs::Instructions::fill))]
pub(crate) fn fill_sure(m: &mut Machine<'_>, n: usize, at: usize, b: u8) -> usize
    requires { n ≤ 16384 - at }
    ensures few { result ≤ n }
    ensures does { Does (fill result at b) m (Ok tt) }
{
    let None = m.first else {
        return 0;
    };
    let sure = n.min(m.journal.len().saturating_sub(m.used));
    spread(m.vram, m.journal, m.used, sure, at, b);
    m.used += sure;
    sure
}
