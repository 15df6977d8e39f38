// The subroutine stack: pc pushed and popped. Its pointer is at >73.
ghost use Rattle.std.specs.Prelude.{◌≡◌, ◌≤◌, true};
ghost use Rattle.rules.specs.Instructions;
ghost use Rattle.rules.specs.Instructions.{on_sub_stack, push_pc, pop_pc};
ghost use Rattle.machine.specs.Meaning.{Does};

use machine::answers::{Why, need};
use machine::cells;
use machine::memory::Memory;
use machine::state::Machine;

// Even, and from >80 to >9E.
#[tactic(auto, using(machine::proofs::Laws::testing))]
fn on_sub_stack(p: u16) -> bool
    ensures is { result ≡ on_sub_stack p }
    ensures bounds { result ≡ true → (0x80 ≤ p) × (p ≤ 0x9E) }
{
    p % 2 == 0 && (0x80..=0x9E).contains(&p)
}

// The pointer up by 2, which is the value given.
#[tactic(auto, using(machine::proofs::Laws::steps), unfolding(rules::specs::Instructions::raise))]
pub fn raise(m: &mut Machine<'_>) -> Result<u8, Why>
    ensures { Does Instructions.raise m result }
{
    let up = m.load(Memory::Cpu, cells::SUB_POINTER)? as u16 + 2;
    need(on_sub_stack(up), Why::OffStack)?;
    let b = up as u8;
    m.store(Memory::Cpu, cells::SUB_POINTER, b)?;
    Ok(b)
}

#[tactic(auto, using(machine::proofs::Laws::steps), unfolding(rules::specs::Instructions::push_pc))]
pub fn push_pc(m: &mut Machine<'_>) -> Result<(), Why>
    ensures { Does push_pc m result }
{
    let p = raise(m)?;
    m.store_word(Memory::Cpu, p as usize, m.pc)
}

#[tactic(auto, using(machine::proofs::Laws::steps), unfolding(rules::specs::Instructions::pop_pc))]
pub fn pop_pc(m: &mut Machine<'_>) -> Result<(), Why>
    ensures { Does pop_pc m result }
{
    let p = m.load(Memory::Cpu, cells::SUB_POINTER)?;
    need(on_sub_stack(p as u16), Why::OffStack)?;
    let w = m.load_word(Memory::Cpu, p as usize)?;
    m.store(Memory::Cpu, cells::SUB_POINTER, p - 2)?;
    m.pc = w;
    Ok(())
}
