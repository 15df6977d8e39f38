// The codes of a format string: one function for each kind, one that picks among them, and the loop.
ghost use Rattle.std.specs.Prelude.{◌≡◌, ◌<◌, ◌≤◌};
ghost use Rattle.rules.specs.Format;
ghost use Rattle.rules.specs.Format.{count, open_block, close_block, block_turn, end_inside, end_code, grom_bias, operand_bias, code_rule, fmt_rule};
ghost use Rattle.machine.specs.Meaning.{valued, Does};
ghost use Rattle.format.specs.Meaning.{turn_of, FewBlocks};

use crate::{cursor, text};
use machine::answers::Why;
use machine::cells;
use machine::memory::Memory;
use machine::state::Machine;
use operand::stacks;

const MOST_CODES: u16 = 16384;

// Where a format string goes on after a code: with a bias and so many blocks not yet closed. None: it has ended.
#[derive(Clone, Copy)]
pub struct Turn {
    pub bias: u8,
    pub blocks: u16,
}

// ---- blocks

// The stack pointer up by 2, and there 256 minus the count.
#[tactic(auto, using(machine::proofs::Laws::steps), unfolding(rules::specs::Format::open_block))]
fn open_block(m: &mut Machine<'_>, n: u16, t: Turn) -> Result<Option<Turn>, Why>
    requires { (0 < n) × (n ≤ 32) × (t.blocks ≤ 16384) }
    ensures blocks { FewBlocks t.blocks result }
    ensures does { Does (open_block n t.bias t.blocks) m (valued turn_of result) }
{
    let p = stacks::raise(m)?;
    m.store(Memory::Cpu, p as usize, (256 - n) as u8)?;
    Ok(Some(Turn {
        blocks: t.blocks + 1,
        ..t
    }))
}

#[tactic(auto, using(machine::proofs::Laws::steps), unfolding(rules::specs::Format::close_block))]
fn close_block(m: &mut Machine<'_>, p: u8, t: Turn) -> Result<Option<Turn>, Why>
    requires { 0 < t.blocks }
    ensures blocks { FewBlocks t.blocks result }
    ensures does { Does (close_block p t.bias t.blocks) m (valued turn_of result) }
{
    m.store(Memory::Cpu, cells::SUB_POINTER, p.saturating_sub(2))?;
    Ok(Some(Turn {
        blocks: t.blocks - 1,
        ..t
    }))
}

// By the block's count, which is now n: closed at 0, else once more from a.
#[tactic(auto, using(machine::proofs::Laws::steps), unfolding(rules::specs::Format::block_turn, rules::specs::Format::repeat_block))]
fn block_turn(m: &mut Machine<'_>, n: u8, p: u8, a: u16, t: Turn) -> Result<Option<Turn>, Why>
    requires { 0 < t.blocks }
    ensures blocks { FewBlocks t.blocks result }
    ensures does { Does (block_turn n p a t.bias t.blocks) m (valued turn_of result) }
{
    if n == 0 {
        return close_block(m, p, t);
    }
    m.pc = a;
    Ok(Some(t))
}

// ---- ends

#[tactic(auto, using(machine::proofs::Laws::steps), unfolding(rules::specs::Format::end_inside))]
fn end_inside(m: &mut Machine<'_>, t: Turn) -> Result<Option<Turn>, Why>
    requires { 0 < t.blocks }
    ensures blocks { FewBlocks t.blocks result }
    ensures does { Does (end_inside t.bias t.blocks) m (valued turn_of result) }
{
    let a = m.next_word()?;
    let p = m.load(Memory::Cpu, cells::SUB_POINTER)?;
    let n = m.load(Memory::Cpu, p as usize)?.wrapping_add(1);
    m.store(Memory::Cpu, p as usize, n)?;
    block_turn(m, n, p, a, t)
}

// Outside of every block row and column are stored, and the string has ended.
#[tactic(auto, using(machine::proofs::Laws::steps), unfolding(rules::specs::Format::end_code, rules::specs::Format::end_outside))]
fn end_code(m: &mut Machine<'_>, t: Turn) -> Result<Option<Turn>, Why>
    ensures blocks { FewBlocks t.blocks result }
    ensures does { Does (end_code t.bias t.blocks) m (valued turn_of result) }
{
    if t.blocks == 0 {
        cursor::settle_cursor(m)?;
        return Ok(None);
    }
    end_inside(m, t)
}

// ---- the bias

#[tactic(auto, using(machine::proofs::Laws::steps), unfolding(rules::specs::Format::grom_bias))]
fn grom_bias(m: &mut Machine<'_>, t: Turn) -> Result<Option<Turn>, Why>
    ensures blocks { FewBlocks t.blocks result }
    ensures does { Does (grom_bias t.blocks) m (valued turn_of result) }
{
    let bias = m.next_byte()?;
    Ok(Some(Turn { bias, ..t }))
}

#[tactic(auto, using(machine::proofs::Laws::steps), unfolding(rules::specs::Format::operand_bias))]
fn operand_bias(m: &mut Machine<'_>, t: Turn) -> Result<Option<Turn>, Why>
    ensures blocks { FewBlocks t.blocks result }
    ensures does { Does (operand_bias t.blocks) m (valued turn_of result) }
{
    let a = text::cpu_operand(m)?;
    let bias = m.load(Memory::Cpu, a as usize)?;
    Ok(Some(Turn { bias, ..t }))
}

// ---- any code

// The low 5 bits and 1.
fn count_of(c: u8) -> u16
    ensures { result ≡ count c }
{
    c as u16 % 32 + 1
}

// A code that shows, skips or sets the cursor leaves bias and blocks as they are. A step of 1 goes across, one of 32 down.
#[tactic(auto, using(machine::proofs::Laws::steps), unfolding(rules::specs::Format::code_rule, rules::specs::Format::last_row, rules::specs::Format::go_on))]
fn by_code(m: &mut Machine<'_>, t: Turn, c: u8) -> Result<Option<Turn>, Why>
    requires { t.blocks ≤ 16384 }
    ensures blocks { FewBlocks t.blocks result }
    ensures does { Does (code_rule t.bias t.blocks c) m (valued turn_of result) }
{
    let n = count_of(c);
    match c {
        0x00..=0x1F => text::text(m, n, 1, t.bias)?,
        0x20..=0x3F => text::text(m, n, 32, t.bias)?,
        0x40..=0x5F => text::repeat_text(m, n, 1, t.bias)?,
        0x60..=0x7F => text::repeat_text(m, n, 32, t.bias)?,
        0x80..=0x9F => cursor::skip(m, n)?,
        0xA0..=0xBF => cursor::skip(m, n * 32)?,
        0xC0..=0xDF => return open_block(m, n, t),
        0xE0..=0xFA => text::operand_text(m, n, t.bias)?,
        0xFB => return end_code(m, t),
        0xFC => return grom_bias(m, t),
        0xFD => return operand_bias(m, t),
        0xFE => cursor::cursor_code(m, cells::ROW)?,
        0xFF => cursor::cursor_code(m, cells::COLUMN)?,
    }
    Ok(Some(t))
}

#[tactic(auto, using(machine::proofs::Laws::steps), unfolding(rules::specs::Format::code))]
fn code(m: &mut Machine<'_>, t: Turn) -> Result<Option<Turn>, Why>
    requires { t.blocks ≤ 16384 }
    ensures blocks { FewBlocks t.blocks result }
    ensures does { Does (Format.code t.bias t.blocks) m (valued turn_of result) }
{
    let c = m.next_byte()?;
    by_code(m, t, c)
}

// At most 16,384 codes: the next is refused before it is read.
#[tactic(auto, using(machine::proofs::Laws::steps, crate::proofs::Laws::turns), unfolding(rules::specs::Format::fmt_rule))]
pub fn format(m: &mut Machine<'_>) -> Result<(), Why>
    ensures { Does fmt_rule m result }
{
    let mut t = Turn { bias: 0, blocks: 0 };
    for _ in 0..MOST_CODES {
        let Some(next) = code(m, t)? else {
            return Ok(());
        };
        t = next;
    }
    Err(Why::TooLong)
}
