// Decoding: from an operand's bytes to its cell.
ghost use Rattle.std.specs.Prelude.{◌≡◌, ◌+◌, ◌≤◌, true, IfOk};
ghost use Rattle.rules.specs.Operands;
ghost use Rattle.rules.specs.Operands.{on_data_stack, operand_of};
ghost use Rattle.machine.specs.Meaning.{valued, Does, Unwritten};
ghost use Rattle.operand.specs.Meaning.{cell_of};

use crate::places::Place;
use machine::answers::{Why, need};
use machine::cells;
use machine::memory::Memory;
use machine::state::Machine;
use number::{addresses, bits, words};

// ---- the offset

#[tactic(auto, using(machine::proofs::Laws::steps), unfolding(rules::specs::Operands::short_offset))]
fn short_offset(m: &mut Machine<'_>, aaaa: u8) -> Result<u16, Why>
    ensures { Does (Operands.short_offset aaaa) m result }
{
    let low = m.next_byte()?;
    Ok(words::word_of(aaaa, low))
}

#[tactic(auto, using(machine::proofs::Laws::choosing), unfolding(rules::specs::Operands::offset))]
fn offset(m: &mut Machine<'_>, aaaa: u8) -> Result<u16, Why>
    ensures { Does (Operands.offset aaaa) m result }
{
    if aaaa == 15 {
        m.next_word()
    } else {
        short_offset(m, aaaa)
    }
}

#[tactic(auto, using(machine::proofs::Laws::steps), unfolding(rules::specs::Operands::add_index))]
fn add_index(m: &mut Machine<'_>, a: u16) -> Result<u16, Why>
    ensures does { Does (Operands.add_index a) m result }
    ensures words { Unwritten m }
{
    let x = m.next_byte()?;
    let w = m.load_word(Memory::Cpu, x as usize)?;
    Ok(addresses::plus(a, w))
}

// With X, a pad word is added, before any indirection.
#[tactic(auto, using(machine::proofs::Laws::choosing), unfolding(rules::specs::Operands::indexed))]
pub fn indexed(m: &mut Machine<'_>, x: bool, a: u16) -> Result<u16, Why>
    ensures does { Does (Operands.indexed x a) m result }
    ensures words { Unwritten m }
{
    if x { add_index(m, a) } else { Ok(a) }
}

// ---- the cell that an offset names

#[tactic(auto, using(machine::proofs::Laws::steps), unfolding(rules::specs::Operands::through_word))]
fn through_word(m: &mut Machine<'_>, a: u16) -> Result<Place, Why>
    ensures { Does (Operands.through_word a) m (valued cell_of result) }
{
    let w = m.load_word(Memory::Cpu, a as usize)?;
    Ok(Place::Vdp(w))
}

#[tactic(auto, using(machine::proofs::Laws::steps), unfolding(rules::specs::Operands::through_byte))]
fn through_byte(m: &mut Machine<'_>, a: u16) -> Result<Place, Why>
    ensures { Does (Operands.through_byte a) m (valued cell_of result) }
{
    let b = m.load(Memory::Cpu, a as usize)?;
    Ok(Place::Cpu(b as u16))
}

// The data stack's area.
#[tactic(auto, using(machine::proofs::Laws::testing))]
pub fn on_data_stack(p: u16) -> bool
    ensures is { result ≡ on_data_stack p }
    ensures bounds { result ≡ true → (0xA0 ≤ p) × (p ≤ 0xBF) }
{
    (0xA0..=0xBF).contains(&p)
}

// A pop off the data stack: the pointer's test, its store, and the cell.
#[tactic(auto, using(machine::proofs::Laws::steps), unfolding(rules::specs::Operands::pop_cell))]
fn pop_cell(m: &mut Machine<'_>) -> Result<Place, Why>
    ensures { Does Operands.pop_cell m (valued cell_of result) }
{
    let p = m.load(Memory::Cpu, cells::DATA_POINTER)?;
    need(on_data_stack(p as u16), Why::OffStack)?;
    m.store(Memory::Cpu, cells::DATA_POINTER, p - 1)?;
    Ok(Place::Cpu(p as u16))
}

#[tactic(auto, using(machine::proofs::Laws::choosing), unfolding(rules::specs::Operands::through_pad))]
fn through_pad(m: &mut Machine<'_>, a: u16) -> Result<Place, Why>
    ensures { Does (Operands.through_pad a) m (valued cell_of result) }
{
    if a as usize == cells::STATUS {
        pop_cell(m)
    } else {
        through_byte(m, a)
    }
}

// By the bits V and I.
#[tactic(auto, using(machine::proofs::Laws::choosing), unfolding(rules::specs::Operands::named))]
fn named(m: &mut Machine<'_>, v: bool, i: bool, a: u16) -> Result<Place, Why>
    ensures { Does (Operands.named v i a) m (valued cell_of result) }
{
    match (v, i) {
        (true, true) => through_word(m, a),
        (true, false) => Ok(Place::Vdp(a)),
        (false, true) => through_pad(m, a),
        (false, false) => Ok(Place::Cpu(a)),
    }
}

// An operand of more than one byte, by its first: 1XVIaaaa.
#[tactic(auto, using(machine::proofs::Laws::steps), unfolding(rules::specs::Operands::far_cell))]
fn far_cell(m: &mut Machine<'_>, b: u8) -> Result<Place, Why>
    ensures { Does (Operands.far_cell b) m (valued cell_of result) }
{
    let a = offset(m, bits::nibble(b))?;
    let e = indexed(m, bits::bit(6, b), a)?;
    named(m, bits::bit(5, b), bits::bit(4, b), e)
}

#[tactic(auto, using(machine::proofs::Laws::choosing), unfolding(rules::specs::Operands::any_cell))]
fn any_cell(m: &mut Machine<'_>, b: u8) -> Result<Place, Why>
    ensures { Does (Operands.any_cell b) m (valued cell_of result) }
{
    if b < 0x80 {
        Ok(Place::Cpu(b as u16))
    } else {
        far_cell(m, b)
    }
}

// ---- the operand

// An operand of which n bytes must be in range: 1 for a byte or a place, 2 for a word.
#[tactic(auto, using(machine::proofs::Laws::steps), unfolding(rules::specs::Operands::operand_of, rules::specs::Operands::reached))]
pub fn operand(m: &mut Machine<'_>, n: usize) -> Result<Place, Why>
    requires { n ≤ 2 }
    ensures reach { IfOk result (λ p. (cell_of p).at + n ≤ 16384) }
    ensures does { Does (operand_of n) m (valued cell_of result) }
{
    let first = m.next_byte()?;
    let place = any_cell(m, first)?;
    need(place.in_reach(n), place.outside())?;
    Ok(place)
}
