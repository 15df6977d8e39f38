// The screen: the position that row and column name, the byte there, and the character buffer.
ghost use Rattle.std.specs.Prelude.{◌<◌, IfOk};
ghost use Rattle.rules.specs.Operands;
ghost use Rattle.machine.specs.Meaning.{Does, Unwritten};

use machine::answers::Why;
use machine::cells;
use machine::memory::Memory;
use machine::state::Machine;

// The position that row and column name: a sum with a step fits.
#[tactic(auto, using(machine::proofs::Laws::steps), unfolding(rules::specs::Operands::position))]
pub fn position(m: &mut Machine<'_>) -> Result<u16, Why>
    ensures bound { IfOk result (λ p. p < 8192) }
    ensures does { Does Operands.position m result }
    ensures words { Unwritten m }
{
    let row = m.load(Memory::Cpu, cells::ROW)?;
    let column = m.load(Memory::Cpu, cells::COLUMN)?;
    Ok(number::cursor::position_of(row, column))
}

#[tactic(auto, using(machine::proofs::Laws::steps), unfolding(rules::specs::Operands::screen_byte))]
pub fn screen_byte(m: &mut Machine<'_>) -> Result<u8, Why>
    ensures does { Does Operands.screen_byte m result }
    ensures words { Unwritten m }
{
    let p = position(m)?;
    m.load(Memory::Vdp, p as usize)
}

#[tactic(auto, using(machine::proofs::Laws::steps), unfolding(rules::specs::Operands::to_screen))]
pub fn to_screen(m: &mut Machine<'_>, b: u8) -> Result<(), Why>
    ensures { Does (Operands.to_screen b) m result }
{
    let p = position(m)?;
    m.store(Memory::Vdp, p as usize, b)
}

// The screen byte into the character buffer.
#[tactic(auto, using(machine::proofs::Laws::steps), unfolding(rules::specs::Operands::load_buffer))]
pub fn load_buffer(m: &mut Machine<'_>) -> Result<(), Why>
    ensures { Does Operands.load_buffer m result }
{
    let b = screen_byte(m)?;
    m.store(Memory::Cpu, cells::BUFFER, b)
}
