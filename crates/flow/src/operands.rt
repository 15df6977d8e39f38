// PUSH, CASE and FETCH: those of one operand that go to a stack or to pc.
ghost use Rattle.std.specs.Prelude.{◌≡◌, false};
ghost use Rattle.rules.specs.Machine.{pick};
ghost use Rattle.rules.specs.Arithmetic.{extended};
ghost use Rattle.rules.specs.Instructions.{push_rule, case_rule, fetch_rule};
ghost use Rattle.machine.specs.Meaning.{Does};

use machine::answers::{Why, need};
use machine::cells;
use machine::memory::Memory;
use machine::state::Machine;
use number::{addresses, sums, words};
use operand::decode::on_data_stack;
use operand::targets::read_target;
use operand::{stacks, status, values};

// The low byte onto the data stack.
#[tactic(auto, using(machine::proofs::Laws::steps), unfolding(rules::specs::Instructions::push_rule))]
pub fn push(m: &mut Machine<'_>, wide: bool) -> Result<(), Why>
    ensures { Does (push_rule wide) m result }
{
    let v = values::operand_value(m, wide)?;
    let up = m.load(Memory::Cpu, cells::DATA_POINTER)? as u16 + 1;
    need(on_data_stack(up), Why::OffStack)?;
    m.store(Memory::Cpu, cells::DATA_POINTER, up as u8)?;
    m.store(Memory::Cpu, up as usize, words::low_of(v))
}

// Twice the value further on, within the group.
#[tactic(auto, using(machine::proofs::Laws::steps), unfolding(rules::specs::Instructions::case_rule))]
pub fn case(m: &mut Machine<'_>, wide: bool) -> Result<(), Why>
    ensures { Does (case_rule wide) m result }
{
    let v = values::operand_value(m, wide)?;
    m.pc = addresses::case_target(m.pc, sums::extended(wide, v));
    status::set_condition(m, false)
}

// A byte as FETCH stores it: as it is, or sign-extended to a word.
fn fetched(wide: bool, b: u8) -> u16
    ensures { result ≡ pick wide (extended false b) b }
{
    let byte = b as u16;
    if wide {
        sums::extended(false, byte)
    } else {
        byte
    }
}

// The byte that the top of the subroutine stack names, and that word up by 1. pc is left in the slot above it.
#[tactic(auto, using(machine::proofs::Laws::steps), unfolding(rules::specs::Instructions::fetch_rule, operand::specs::Meaning::read_target))]
pub fn fetch(m: &mut Machine<'_>, wide: bool) -> Result<(), Why>
    ensures { Does (fetch_rule wide) m result }
{
    let target = read_target(m, wide)?;
    let old = m.load(Memory::Cpu, cells::SUB_POINTER)?;
    stacks::push_pc(m)?;
    m.store(Memory::Cpu, cells::SUB_POINTER, old)?;
    let top = m.load_word(Memory::Cpu, old as usize)?;
    let b = m.load(Memory::Grom, top as usize)?;
    m.store_word(Memory::Cpu, old as usize, addresses::plus(top, 1))?;
    values::result(m, wide, target.place, fetched(wide, b))
}
