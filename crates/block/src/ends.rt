// Where a MOVE's bytes come from and where they go.
ghost use Rattle.std.specs.Prelude.{◌≡◌};
ghost use Rattle.rules.specs.Operands.{place};
ghost use Rattle.rules.specs.Instructions;
ghost use Rattle.rules.specs.Instructions.{register_cell, ram_target, move_target, grom_cell, move_source};
ghost use Rattle.machine.specs.Meaning.{kind_of, valued, Does};
ghost use Rattle.block.specs.Meaning.{end_of};

use machine::answers::Why;
use machine::memory::Memory;
use machine::state::Machine;
use operand::decode;

// The first cell of either end.
#[derive(Clone, Copy)]
pub struct End {
    pub memory: Memory,
    pub at: u16,
}

impl End {
    // Where the cell k further on is: an address of the image counts in 16 bits.
    pub(crate) fn beyond(self, k: u16) -> usize
        ensures { result ≡ (Instructions.beyond k (end_of self)).at }
    {
        match self.memory {
            Memory::Grom => number::addresses::plus(self.at, k) as usize,
            _ => self.at as usize + k as usize,
        }
    }
}

#[tactic(auto, using(machine::proofs::Laws::steps), unfolding(rules::specs::Instructions::register_cell))]
fn register_cell(m: &mut Machine<'_>) -> Result<End, Why>
    ensures { Does register_cell m (valued end_of result) }
{
    let n = m.next_byte()?;
    Ok(End {
        memory: Memory::Register,
        at: n as u16,
    })
}

// A place in the pad or in VDP RAM.
#[tactic(auto, using(machine::proofs::Laws::steps))]
fn place(m: &mut Machine<'_>) -> Result<End, Why>
    ensures { Does place m (valued end_of result) }
{
    let place = decode::operand(m, 1)?;
    Ok(End {
        memory: place.memory(),
        at: place.at(),
    })
}

// A two-byte address, with an index or not.
#[tactic(auto, using(machine::proofs::Laws::steps), unfolding(rules::specs::Instructions::grom_cell))]
fn grom_cell(m: &mut Machine<'_>, x: bool) -> Result<End, Why>
    ensures { Does (grom_cell x) m (valued end_of result) }
{
    let a = m.next_word()?;
    let at = decode::indexed(m, x, a)?;
    Ok(End {
        memory: Memory::Grom,
        at,
    })
}

// A register number, or a place.
#[tactic(auto, using(machine::proofs::Laws::choosing), unfolding(rules::specs::Instructions::ram_target))]
fn ram_target(m: &mut Machine<'_>, register: bool) -> Result<End, Why>
    ensures { Does (ram_target register) m (valued end_of result) }
{
    if register { register_cell(m) } else { place(m) }
}

// In RAM, or in the image.
#[tactic(auto, using(machine::proofs::Laws::choosing), unfolding(rules::specs::Instructions::move_target))]
pub fn move_target(m: &mut Machine<'_>, ram: bool, register: bool) -> Result<End, Why>
    ensures { Does (move_target ram register) m (valued end_of result) }
{
    if ram {
        ram_target(m, register)
    } else {
        grom_cell(m, false)
    }
}

// A place, or the image.
#[tactic(auto, using(machine::proofs::Laws::choosing), unfolding(rules::specs::Instructions::move_source))]
pub fn move_source(m: &mut Machine<'_>, operand: bool, x: bool) -> Result<End, Why>
    ensures { Does (move_source operand x) m (valued end_of result) }
{
    if operand { place(m) } else { grom_cell(m, x) }
}
