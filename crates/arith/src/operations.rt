// The instructions of one and two operands: the operands read, then what they store.
ghost use Rattle.rules.specs.Instructions.{store_effect, one_rule, two_rule, ex_rule};
ghost use Rattle.machine.specs.Meaning.{Does};
ghost use Rattle.operand.specs.Meaning.{cell_of};
ghost use Rattle.arith.specs.Meaning.{one_of, two_of, effect_of};

use crate::effects;
use crate::effects::{Effect, One, Two};
use machine::answers::Why;
use machine::cells;
use machine::memory::Memory;
use machine::state::Machine;
use operand::places::Place;
use operand::targets::read_target;
use operand::{status, values};

// Status first, then the result.
#[tactic(auto, using(machine::proofs::Laws::steps), unfolding(rules::specs::Instructions::store_effect))]
fn store_effect(m: &mut Machine<'_>, wide: bool, place: Place, e: Effect) -> Result<(), Why>
    ensures { Does (store_effect wide (cell_of place) (effect_of e)) m result }
{
    match e {
        Effect::Both(s, v) => {
            m.store(Memory::Cpu, cells::STATUS, s)?;
            values::result(m, wide, place, v)
        }
        Effect::Only(v) => values::result(m, wide, place, v),
        Effect::Flags(s) => m.store(Memory::Cpu, cells::STATUS, s),
        Effect::Condition(c) => status::set_condition(m, c),
    }
}

#[tactic(auto, using(machine::proofs::Laws::steps), unfolding(rules::specs::Instructions::one_rule, operand::specs::Meaning::read_target))]
pub fn one(m: &mut Machine<'_>, op: One, wide: bool) -> Result<(), Why>
    ensures { Does (one_rule (one_of op) wide) m result }
{
    let target = read_target(m, wide)?;
    let e = effects::one_effect(op, wide, target.value);
    store_effect(m, wide, target.place, e)
}

// The destination is read before the source.
#[tactic(auto, using(machine::proofs::Laws::steps), unfolding(rules::specs::Instructions::two_rule, operand::specs::Meaning::read_target))]
pub fn two(m: &mut Machine<'_>, op: Two, imm: bool, wide: bool) -> Result<(), Why>
    ensures { Does (two_rule (two_of op) imm wide) m result }
{
    let target = read_target(m, wide)?;
    let b = values::source(m, imm, wide)?;
    let e = effects::two_effect(op, wide, target.value, b);
    store_effect(m, wide, target.place, e)
}

// Each operand gets the other's value, the destination first.
#[tactic(auto, using(machine::proofs::Laws::steps), unfolding(rules::specs::Instructions::ex_rule, operand::specs::Meaning::read_target))]
pub fn ex(m: &mut Machine<'_>, wide: bool) -> Result<(), Why>
    ensures { Does (ex_rule wide) m result }
{
    let a = read_target(m, wide)?;
    let b = read_target(m, wide)?;
    values::result(m, wide, a.place, b.value)?;
    values::result(m, wide, b.place, a.value)
}
