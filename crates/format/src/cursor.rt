// The cursor: a character shown, cells skipped, row and column stored.
ghost use Rattle.std.specs.Prelude.{◌≤◌};
ghost use Rattle.rules.specs.Format;
ghost use Rattle.rules.specs.Format.{set_cursor, settle_cursor, cursor_code};
ghost use Rattle.machine.specs.Meaning.{Does};

use machine::answers::Why;
use machine::cells;
use machine::memory::Memory;
use machine::state::Machine;
use number::cursor;
use operand::screen;

#[tactic(auto, using(machine::proofs::Laws::steps, operand::proofs::Stores::run_kept_byte), unfolding(rules::specs::Format::set_cursor))]
#[inline]
fn set_cursor(m: &mut Machine<'_>, p: u16) -> Result<(), Why>
    ensures { Does (set_cursor p) m result }
{
    m.store(Memory::Cpu, cells::ROW, cursor::row_of(p))?;
    m.store(Memory::Cpu, cells::COLUMN, cursor::column_of(p))
}

// A character at the position, which grows by the step.
#[tactic(auto, using(machine::proofs::Laws::steps), unfolding(rules::specs::Format::show))]
pub fn show(m: &mut Machine<'_>, step: u16, b: u8) -> Result<(), Why>
    requires { step ≤ 32 }
    ensures { Does (Format.show step b) m result }
{
    let p = screen::position(m)?;
    m.store(Memory::Vdp, p as usize, b)?;
    set_cursor(m, cursor::wrap_show(p + step))
}

// n cells on.
#[tactic(auto, using(machine::proofs::Laws::steps), unfolding(rules::specs::Format::skip))]
pub fn skip(m: &mut Machine<'_>, n: u16) -> Result<(), Why>
    requires { n ≤ 1024 }
    ensures { Does (Format.skip n) m result }
{
    let p = screen::position(m)?;
    set_cursor(m, cursor::wrap_skip(p + n))
}

// Row and column stored as the position gives them.
#[tactic(auto, using(machine::proofs::Laws::steps), unfolding(rules::specs::Format::settle_cursor))]
pub fn settle_cursor(m: &mut Machine<'_>) -> Result<(), Why>
    ensures { Does settle_cursor m result }
{
    let p = screen::position(m)?;
    set_cursor(m, p)
}

// A new row or column, at `at`: both are stored before it is read.
#[tactic(auto, using(machine::proofs::Laws::steps), unfolding(rules::specs::Format::cursor_code))]
pub fn cursor_code(m: &mut Machine<'_>, at: usize) -> Result<(), Why>
    ensures { Does (cursor_code at) m result }
{
    settle_cursor(m)?;
    let b = m.next_byte()?;
    m.store(Memory::Cpu, at, b)
}
