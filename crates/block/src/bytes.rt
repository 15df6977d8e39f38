// One byte of a MOVE, k further on from each end.
ghost use Rattle.std.specs.Prelude.{◌<◌};
ghost use Rattle.rules.specs.Operands.{cell};
ghost use Rattle.rules.specs.Instructions;
ghost use Rattle.rules.specs.Instructions.{beyond, source_byte, register_one, move_byte};
ghost use Rattle.machine.specs.Meaning.{kind_of, IsNear, Does};
ghost use Rattle.block.specs.Meaning.{end_of};

use crate::ends::End;
use machine::answers::Why;
use machine::cells;
use machine::memory::Memory;
use machine::state::Machine;

// Register 1's byte, with the bit of 16 KiB set, goes to its copy first.
#[tactic(auto, using(machine::proofs::Laws::steps), unfolding(rules::specs::Instructions::register_one))]
fn register_one(m: &mut Machine<'_>, b: u8) -> Result<(), Why>
    ensures { Does (register_one b) m result }
{
    let set = 0x80 + b % 0x80;
    m.store(Memory::Cpu, cells::REGISTER_COPY, set)?;
    m.store(Memory::Register, 1, set)
}

// To the image only in a writable group.
#[tactic(auto, using(machine::proofs::Laws::choosing), unfolding(rules::specs::Instructions::deliver))]
fn deliver(m: &mut Machine<'_>, memory: Memory, at: usize, b: u8) -> Result<(), Why>
    requires { IsNear memory at }
    ensures { Does (Instructions.deliver (cell (kind_of memory) at) b) m result }
{
    if memory == Memory::Register && at == 1 {
        register_one(m, b)
    } else {
        m.store(memory, at, b)
    }
}

#[tactic(auto, using(machine::proofs::Laws::steps), unfolding(rules::specs::Instructions::move_byte, rules::specs::Instructions::source_byte))]
pub fn move_byte(m: &mut Machine<'_>, from: End, to: End, k: u16) -> Result<(), Why>
    ensures { Does (move_byte (end_of from) (end_of to) k) m result }
{
    let b = m.load(from.memory, from.beyond(k))?;
    deliver(m, to.memory, to.beyond(k), b)
}
