// BACK and ALL: the backdrop, and the whole screen.
ghost use Rattle.std.specs.Prelude.{◌+◌, ◌≤◌};
ghost use Rattle.rules.specs.Instructions;
ghost use Rattle.rules.specs.Instructions.{back_rule, all_rule};
ghost use Rattle.machine.specs.Meaning.{Does};

use crate::copies;
use machine::answers::Why;
use machine::cells;
use machine::memory::Memory;
use machine::state::Machine;

const BACKDROP: usize = 7;

const SCREEN: usize = 768;

#[tactic(auto, using(machine::proofs::Laws::steps), unfolding(rules::specs::Instructions::back_rule))]
pub fn back(m: &mut Machine<'_>) -> Result<(), Why>
    ensures { Does back_rule m result }
{
    let b = m.next_byte()?;
    m.store(Memory::Register, BACKDROP, b)
}

// A byte into n cells of VDP RAM from `at` on: where it surely goes at once, then one by one.
#[tactic(auto, using(machine::proofs::Laws::looping), unfolding(rules::specs::Instructions::fill))]
fn fill(m: &mut Machine<'_>, n: usize, at: usize, b: u8) -> Result<(), Why>
    requires { at + n ≤ 16384 }
    ensures { Does (Instructions.fill n at b) m result }
{
    let gone = copies::fill_sure(m, n, at, b);
    for k in gone..n {
        m.store(Memory::Vdp, at + k, b)?;
    }
    Ok(())
}

#[tactic(auto, using(machine::proofs::Laws::steps), unfolding(rules::specs::Instructions::all_rule))]
pub fn all(m: &mut Machine<'_>) -> Result<(), Why>
    ensures { Does all_rule m result }
{
    let b = m.next_byte()?;
    fill(m, SCREEN, 0, b)?;
    m.store(Memory::Cpu, cells::ROW, 0)?;
    m.store(Memory::Cpu, cells::COLUMN, 0)
}
