// A tick past its mark: the count goes down, and the block that is then due is sent.
ghost use Rattle.rules.specs.Sound;
ghost use Rattle.rules.specs.Sound.{due_block, count_down, tick_rule};
ghost use Rattle.machine.specs.Meaning.{Does};
ghost use Rattle.sound.specs.Meaning;
ghost use Rattle.sound.specs.Meaning.{Plays, room_left, due_of};

use crate::block::Due;
use crate::list::Output;
use crate::{block, list};
use machine::answers::Why;
use machine::cells;
use machine::memory::Memory;
use machine::state::Machine;
use operand::stacks;

// A block in GROM is read between a push and a pop of pc.
#[tactic(auto, using(machine::proofs::Laws::choosing), unfolding(rules::specs::Sound::opened))]
fn opened(m: &mut Machine<'_>, source: bool) -> Result<(), Why>
    ensures { Does (Sound.opened source) m result }
{
    if source { Ok(()) } else { stacks::push_pc(m) }
}

#[tactic(auto, using(machine::proofs::Laws::choosing), unfolding(rules::specs::Sound::closed))]
fn closed(m: &mut Machine<'_>, source: bool) -> Result<(), Why>
    ensures { Does (Sound.closed source) m result }
{
    if source { Ok(()) } else { stacks::pop_pc(m) }
}

// After a block: where the next one is and when it is due are stored, pc is popped if it was pushed, and the flag is the next one's source.
#[tactic(auto, using(machine::proofs::Laws::steps), unfolding(crate::specs::Meaning::book))]
fn book(m: &mut Machine<'_>, source: bool, due: Due) -> Result<bool, Why>
    ensures { Does (Meaning.book source (due_of due)) m result }
{
    m.store_word(Memory::Cpu, cells::LIST, due.list)?;
    m.store(Memory::Cpu, cells::COUNT, due.count)?;
    closed(m, source)?;
    Ok(due.source)
}

// The block at the list's address, and where and when the next one is due.
#[tactic(auto, using(crate::proofs::Laws::playing), unfolding(rules::specs::Sound::due_block))]
fn due_block(m: &mut Machine<'_>, output: &mut Output<'_>, source: bool) -> Result<bool, Why>
    ensures { Plays (due_block (room_left output) source) m output result }
{
    let a = m.load_word(Memory::Cpu, cells::LIST)?;
    opened(m, source)?;
    let n = list::list_byte(m, source, a)?;
    let due = block::block(m, output, source, a, n)?;
    book(m, source, due)
}

// The new count, n, is stored; at 0 a block is due.
#[tactic(auto, using(crate::proofs::Laws::playing), unfolding(rules::specs::Sound::count_down))]
fn count_down(
    m: &mut Machine<'_>,
    output: &mut Output<'_>,
    source: bool,
    n: u8,
) -> Result<bool, Why>
    ensures { Plays (count_down (room_left output) source n) m output result }
{
    m.store(Memory::Cpu, cells::COUNT, n)?;
    if n == 0 {
        due_block(m, output, source)
    } else {
        Ok(source)
    }
}

// The source flag that it leaves. On a count of 0 no more is done.
#[tactic(auto, using(crate::proofs::Laws::playing), unfolding(rules::specs::Sound::tick_rule))]
pub fn tick(m: &mut Machine<'_>, output: &mut Output<'_>, source: bool) -> Result<bool, Why>
    ensures { Plays (tick_rule (room_left output) source) m output result }
{
    let count = m.load(Memory::Cpu, cells::COUNT)?;
    if count == 0 {
        Ok(source)
    } else {
        count_down(m, output, source, count - 1)
    }
}
