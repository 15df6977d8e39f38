// The condition bit of the status byte.
ghost use Rattle.rules.specs.Instructions.{set_condition};
ghost use Rattle.machine.specs.Meaning.{Does};

use machine::answers::Why;
use machine::cells;
use machine::memory::Memory;
use machine::state::Machine;

#[tactic(auto, using(machine::proofs::Laws::steps), unfolding(rules::specs::Instructions::set_condition))]
pub fn set_condition(m: &mut Machine<'_>, c: bool) -> Result<(), Why>
    ensures { Does (set_condition c) m result }
{
    let s = m.load(Memory::Cpu, cells::STATUS)?;
    m.store(
        Memory::Cpu,
        cells::STATUS,
        number::sums::with_condition(c, s),
    )
}
