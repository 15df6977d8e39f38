// BR and BS, B, CALL, RTN and RTNC. All but RTNC store a cleared condition: RTN before its pop, the others last.
ghost use Rattle.std.specs.Prelude.{◌≡◌};
ghost use Rattle.rules.specs.Instructions;
ghost use Rattle.rules.specs.Instructions.{jump_if, branch_rule, long_rule, call_rule, rtn_rule, rtnc_rule};
ghost use Rattle.machine.specs.Meaning.{Does};

use machine::answers::Why;
use machine::cells;
use machine::memory::Memory;
use machine::state::Machine;
use number::{addresses, bits, words};
use operand::{stacks, status};

// BS (`set`) is taken if the condition is set, BR if it is clear.
fn taken(set: bool, condition: bool) -> bool
    ensures { result ≡ Instructions.taken set condition }
{
    set == condition
}

// To 13 bits within the group of pc.
#[tactic(auto, using(machine::proofs::Laws::choosing), unfolding(rules::specs::Instructions::jump_if, rules::specs::Instructions::jump_in_group))]
fn jump_if(m: &mut Machine<'_>, taken: bool, a: u16) -> Result<(), Why>
    ensures { Does (jump_if taken a) m result }
{
    if taken {
        m.pc = addresses::in_group(m.pc, a);
    }
    Ok(())
}

#[tactic(auto, using(machine::proofs::Laws::steps), unfolding(rules::specs::Instructions::branch_rule))]
pub fn branch(m: &mut Machine<'_>, set: bool, upper: u8) -> Result<(), Why>
    ensures { Does (branch_rule set upper) m result }
{
    let lower = m.next_byte()?;
    let s = m.load(Memory::Cpu, cells::STATUS)?;
    jump_if(m, taken(set, bits::bit(5, s)), words::word_of(upper, lower))?;
    status::set_condition(m, false)
}

#[tactic(auto, using(machine::proofs::Laws::steps), unfolding(rules::specs::Instructions::long_rule))]
pub fn long(m: &mut Machine<'_>) -> Result<(), Why>
    ensures { Does long_rule m result }
{
    m.pc = m.next_word()?;
    status::set_condition(m, false)
}

#[tactic(auto, using(machine::proofs::Laws::steps), unfolding(rules::specs::Instructions::call_rule))]
pub fn call(m: &mut Machine<'_>) -> Result<(), Why>
    ensures { Does call_rule m result }
{
    let a = m.next_word()?;
    stacks::push_pc(m)?;
    m.pc = a;
    status::set_condition(m, false)
}

#[tactic(auto, using(machine::proofs::Laws::steps), unfolding(rules::specs::Instructions::rtn_rule))]
pub fn rtn(m: &mut Machine<'_>) -> Result<(), Why>
    ensures { Does rtn_rule m result }
{
    status::set_condition(m, false)?;
    stacks::pop_pc(m)
}

#[tactic(auto, using(machine::proofs::Laws::steps), unfolding(rules::specs::Instructions::rtnc_rule))]
pub fn rtnc(m: &mut Machine<'_>) -> Result<(), Why>
    ensures { Does rtnc_rule m result }
{
    stacks::pop_pc(m)
}
