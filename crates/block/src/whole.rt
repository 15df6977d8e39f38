// A whole MOVE.
ghost use Rattle.std.specs.Prelude.{◌≡◌};
ghost use Rattle.rules.specs.Instructions.{move_count, move_bytes, move_rule};
ghost use Rattle.machine.specs.Meaning.{Does};
ghost use Rattle.block.specs.Meaning.{end_of};

use crate::ends::End;
use crate::{bytes, copies, ends};
use machine::answers::Why;
use machine::state::Machine;
use number::bits::bit;
use operand::{stacks, values};

// How many bytes a length moves: from 1 to >8000 as many, any other one.
#[tactic(auto, using(machine::proofs::Laws::testing), unfolding(rules::specs::Instructions::move_count))]
fn move_count(l: u16) -> u16
    ensures { result ≡ move_count l }
{
    if (1..=0x8000).contains(&l) { l } else { 1 }
}

// The bytes that surely go at once, the others one by one, until one is refused.
#[tactic(auto, using(machine::proofs::Laws::looping), unfolding(rules::specs::Instructions::move_bytes))]
fn move_bytes(m: &mut Machine<'_>, n: u16, from: End, to: End) -> Result<(), Why>
    ensures { Does (move_bytes n 0 (end_of from) (end_of to)) m result }
{
    let gone = copies::copy_sure(m, n, from, to);
    for k in gone..n {
        bytes::move_byte(m, from, to, k)?;
    }
    Ok(())
}

// By the low five bits of the opcode: 4 to RAM, 3 a register, 2 a source operand, 1 an index, 0 an immediate length.
#[tactic(auto, using(machine::proofs::Laws::steps), unfolding(rules::specs::Instructions::move_rule, rules::specs::Instructions::move_length))]
pub fn move_block(m: &mut Machine<'_>, bits: u8) -> Result<(), Why>
    ensures { Does (move_rule bits) m result }
{
    let l = values::source(m, bit(0, bits), true)?;
    let to = ends::move_target(m, bit(4, bits), bit(3, bits))?;
    let from = ends::move_source(m, bit(2, bits), bit(1, bits))?;
    stacks::push_pc(m)?;
    move_bytes(m, move_count(l), from, to)?;
    stacks::pop_pc(m)
}
