// Text: characters from GROM, one character repeated, characters from the pad. Each is shown with the bias added.
ghost use Rattle.std.specs.Prelude.{◌<◌, ◌≤◌};
ghost use Rattle.rules.specs.Format;
ghost use Rattle.rules.specs.Format.{show_next, show_times, repeat_text, cpu_operand, show_cell, pad_text, operand_text};
ghost use Rattle.machine.specs.Meaning.{Does};

use crate::cursor;
use machine::answers::Why;
use machine::memory::Memory;
use machine::state::Machine;
use operand::decode;
use operand::places::Place;

// ---- from GROM

#[tactic(auto, using(machine::proofs::Laws::steps), unfolding(rules::specs::Format::show_next))]
fn show_next(m: &mut Machine<'_>, step: u16, bias: u8) -> Result<(), Why>
    requires { step ≤ 32 }
    ensures { Does (show_next step bias) m result }
{
    let ch = m.next_byte()?;
    cursor::show(m, step, ch.wrapping_add(bias))
}

// n characters.
#[tactic(auto, using(machine::proofs::Laws::looping), unfolding(rules::specs::Format::text))]
pub fn text(m: &mut Machine<'_>, n: u16, step: u16, bias: u8) -> Result<(), Why>
    requires { step ≤ 32 }
    ensures { Does (Format.text n step bias) m result }
{
    for _ in 0..n {
        show_next(m, step, bias)?;
    }
    Ok(())
}

// One character n times. A loop of its own, as its rule has: one with `text` over a closure would be no plainer.
#[tactic(auto, using(machine::proofs::Laws::looping), unfolding(rules::specs::Format::show_times))]
fn show_times(m: &mut Machine<'_>, n: u16, step: u16, b: u8) -> Result<(), Why>
    requires { step ≤ 32 }
    ensures { Does (show_times n step b) m result }
{
    for _ in 0..n {
        cursor::show(m, step, b)?;
    }
    Ok(())
}

#[tactic(auto, using(machine::proofs::Laws::steps), unfolding(rules::specs::Format::repeat_text))]
pub fn repeat_text(m: &mut Machine<'_>, n: u16, step: u16, bias: u8) -> Result<(), Why>
    requires { step ≤ 32 }
    ensures { Does (repeat_text n step bias) m result }
{
    let repeated = m.next_byte()?;
    show_times(m, n, step, repeated.wrapping_add(bias))
}

// ---- from a CPU operand

// The pad offset of an operand; a VDP cell is refused.
#[tactic(auto, using(machine::proofs::Laws::steps), unfolding(rules::specs::Format::cpu_operand))]
pub fn cpu_operand(m: &mut Machine<'_>) -> Result<u16, Why>
    ensures { Does cpu_operand m result }
{
    match decode::operand(m, 1)? {
        Place::Cpu(a) => Ok(a),
        Place::Vdp(a) => Err(Why::OffCpu(a)),
    }
}

#[tactic(auto, using(machine::proofs::Laws::steps), unfolding(rules::specs::Format::show_cell))]
fn show_cell(m: &mut Machine<'_>, a: usize, bias: u8) -> Result<(), Why>
    ensures { Does (show_cell a bias) m result }
{
    let ch = m.load(Memory::Cpu, a)?;
    cursor::show(m, 1, ch.wrapping_add(bias))
}

// n characters from a pad offset on.
#[tactic(auto, using(machine::proofs::Laws::looping), unfolding(rules::specs::Format::pad_text))]
fn pad_text(m: &mut Machine<'_>, n: u16, a: usize, bias: u8) -> Result<(), Why>
    requires { a < 65536 }
    ensures { Does (pad_text n a bias) m result }
{
    for k in 0..n as usize {
        show_cell(m, a + k, bias)?;
    }
    Ok(())
}

#[tactic(auto, using(machine::proofs::Laws::steps), unfolding(rules::specs::Format::operand_text))]
pub fn operand_text(m: &mut Machine<'_>, n: u16, bias: u8) -> Result<(), Why>
    ensures { Does (operand_text n bias) m result }
{
    let a = cpu_operand(m)?;
    pad_text(m, n, a as usize, bias)
}
