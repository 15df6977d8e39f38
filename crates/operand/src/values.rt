// What is read at a place, and how a result is stored there: a byte or a word.
ghost use Rattle.std.specs.Prelude.{◌≡◌, ◌-◌, ◌<◌, ◌≤◌, IfOk};
ghost use Rattle.rules.specs.Operands;
ghost use Rattle.rules.specs.Operands.{byte_count, past, is_buffer};
ghost use Rattle.rules.specs.Arithmetic.{half, span};
ghost use Rattle.machine.specs.Meaning.{Does, Unwritten};
ghost use Rattle.operand.specs.Meaning.{cell_of};

use crate::places::Place;
use crate::{decode, screen};
use machine::answers::Why;
use machine::cells;
use machine::state::Machine;

// How many bytes a width has.
pub fn byte_count(wide: bool) -> usize
    ensures { (result ≡ byte_count wide) × (1 ≤ result) × (result ≤ 2) }
{
    if wide { 2 } else { 1 }
}

// ---- reading

// What stands at a place, as it stands.
#[tactic(auto, using(machine::proofs::Laws::choosing), unfolding(rules::specs::Operands::standing))]
pub fn standing(m: &mut Machine<'_>, wide: bool, place: Place) -> Result<u16, Why>
    ensures bound { IfOk result (λ v. v < span (half wide)) }
    ensures does { Does (Operands.standing wide (cell_of place)) m result }
    ensures words { Unwritten m }
{
    let at = place.at() as usize;
    if wide {
        return m.load_word(place.memory(), at);
    }
    let b = m.load(place.memory(), at)?;
    Ok(b as u16)
}

// A read whose first byte is the character buffer first stores the screen byte there.
#[tactic(auto, using(machine::proofs::Laws::choosing), unfolding(rules::specs::Operands::refresh))]
fn refresh(m: &mut Machine<'_>, place: Place) -> Result<(), Why>
    ensures { Does (Operands.refresh (cell_of place)) m result }
{
    if place.is_buffer() {
        screen::load_buffer(m)
    } else {
        Ok(())
    }
}

// An operand's value.
#[tactic(auto, using(machine::proofs::Laws::steps), unfolding(rules::specs::Operands::value))]
pub fn value(m: &mut Machine<'_>, wide: bool, place: Place) -> Result<u16, Why>
    ensures bound { IfOk result (λ v. v < span (half wide)) }
    ensures does { Does (Operands.value wide (cell_of place)) m result }
{
    refresh(m, place)?;
    standing(m, wide, place)
}

// ---- storing

#[tactic(auto, using(machine::proofs::Laws::choosing, crate::proofs::Stores::run_kept_byte), unfolding(rules::specs::Operands::store_value))]
fn store_value(m: &mut Machine<'_>, wide: bool, place: Place, v: u16) -> Result<(), Why>
    ensures { Does (Operands.store_value wide (cell_of place) v) m result }
{
    let at = place.at() as usize;
    if wide {
        return m.store_word(place.memory(), at, v);
    }
    m.store(place.memory(), at, number::words::low_of(v))
}

// The last byte of a result is the character buffer.
fn ends_in_buffer(wide: bool, place: Place) -> bool
    ensures { result ≡ is_buffer (past (byte_count wide - 1) (cell_of place)) }
{
    match place {
        Place::Cpu(a) => a as usize + byte_count(wide) - 1 == cells::BUFFER,
        Place::Vdp(_) => false,
    }
}

#[tactic(auto, using(machine::proofs::Laws::choosing), unfolding(rules::specs::Operands::echo))]
fn echo(m: &mut Machine<'_>, wide: bool, place: Place, b: u8) -> Result<(), Why>
    ensures { Does (Operands.echo (past (byte_count wide - 1) (cell_of place)) b) m result }
{
    if ends_in_buffer(wide, place) {
        screen::to_screen(m, b)
    } else {
        Ok(())
    }
}

// A result; if its last byte goes to the character buffer, that byte goes to the screen too.
#[tactic(auto, using(machine::proofs::Laws::steps), unfolding(rules::specs::Operands::result))]
pub fn result(m: &mut Machine<'_>, wide: bool, place: Place, v: u16) -> Result<(), Why>
    ensures { Does (Operands.result wide (cell_of place) v) m result }
{
    store_value(m, wide, place, v)?;
    echo(m, wide, place, number::words::low_of(v))
}

// ---- sources

#[tactic(auto, using(machine::proofs::Laws::steps), unfolding(rules::specs::Operands::operand_value))]
pub fn operand_value(m: &mut Machine<'_>, wide: bool) -> Result<u16, Why>
    ensures bound { IfOk result (λ v. v < span (half wide)) }
    ensures does { Does (Operands.operand_value wide) m result }
{
    let place = decode::operand(m, byte_count(wide))?;
    value(m, wide, place)
}

// The bytes at pc.
#[tactic(auto, using(machine::proofs::Laws::choosing), unfolding(rules::specs::Operands::immediate))]
pub fn immediate(m: &mut Machine<'_>, wide: bool) -> Result<u16, Why>
    ensures bound { IfOk result (λ v. v < span (half wide)) }
    ensures does { Does (Operands.immediate wide) m result }
    ensures words { Unwritten m }
{
    if wide {
        return m.next_word();
    }
    let b = m.next_byte()?;
    Ok(b as u16)
}

#[tactic(auto, using(machine::proofs::Laws::choosing), unfolding(rules::specs::Operands::source))]
pub fn source(m: &mut Machine<'_>, imm: bool, wide: bool) -> Result<u16, Why>
    ensures bound { IfOk result (λ v. v < span (half wide)) }
    ensures does { Does (Operands.source imm wide) m result }
{
    if imm {
        immediate(m, wide)
    } else {
        operand_value(m, wide)
    }
}
