// The class of an opcode: the refusal that stops it, its task, or the start of a sound list.
ghost use Rattle.std.specs.Prelude.{◌≡◌};
ghost use Rattle.rules.specs.Opcodes.{class_of};
ghost use Rattle.opcode.specs.Meaning.{meant};

use arith::effects::{One, Two};
use flow::status::Test;
use machine::answers::Why;

// What an opcode does. Flags say, in this order: the source is immediate, the operands are words.
// A branch has the condition bit that takes it, and the upper bits of its target.
#[derive(Clone, Copy)]
pub enum Task {
    Rtn,
    Rtnc,
    Rand,
    Back,
    Long,
    Call,
    All,
    Fmt,
    Test(Test),
    Move(u8),
    Branch(bool, u8),
    One(One, bool),
    Fetch(bool),
    Case(bool),
    Push(bool),
    Two(Two, bool, bool),
    Mul(bool, bool),
    Div(bool, bool),
    Ex(bool),
    Coinc,
}

// The start of a list has flags too: the source is immediate, the operands are words.
#[derive(Clone, Copy)]
pub enum Class {
    Does(Task),
    Starts(bool, bool),
}

// The list of all 256 opcodes, ascending: a line for each opcode, or for each run of opcodes that share an instruction.
// Bits of the opcode say the rest: bit 0 that the operands are words, bit 1 that the source is immediate.
pub fn class_of(op: u8) -> Result<Class, Why>
    ensures { meant result ≡ class_of op }
{
    let wide = number::bits::bit(0, op);
    let imm = number::bits::bit(1, op);
    match op {
        0x00 => Ok(Class::Does(Task::Rtn)),
        0x01 => Ok(Class::Does(Task::Rtnc)),
        0x02 => Ok(Class::Does(Task::Rand)),
        0x03 => Err(Why::NeedsHost),
        0x04 => Ok(Class::Does(Task::Back)),
        0x05 => Ok(Class::Does(Task::Long)),
        0x06 => Ok(Class::Does(Task::Call)),
        0x07 => Ok(Class::Does(Task::All)),
        0x08 => Ok(Class::Does(Task::Fmt)),
        0x09 => Ok(Class::Does(Task::Test(Test::High))),
        0x0A => Ok(Class::Does(Task::Test(Test::Greater))),
        0x0B => Err(Why::Ended),
        0x0C => Ok(Class::Does(Task::Test(Test::Carry))),
        0x0D => Ok(Class::Does(Task::Test(Test::Overflow))),
        0x0E => Err(Why::NoSuch),
        0x0F => Err(Why::NeedsHost),
        0x10..=0x1F => Err(Why::NoSuch),
        0x20..=0x25 => Ok(Class::Does(Task::Move(op % 32))),
        0x26..=0x2F => Err(Why::NoSuch),
        0x30..=0x35 => Ok(Class::Does(Task::Move(op % 32))),
        0x36..=0x37 => Err(Why::NoSuch),
        0x38..=0x3D => Ok(Class::Does(Task::Move(op % 32))),
        0x3E..=0x3F => Err(Why::NoSuch),
        0x40..=0x5F => Ok(Class::Does(Task::Branch(false, op % 32))),
        0x60..=0x7F => Ok(Class::Does(Task::Branch(true, op % 32))),
        0x80..=0x81 => Ok(Class::Does(Task::One(One::Abs, wide))),
        0x82..=0x83 => Ok(Class::Does(Task::One(One::Neg, wide))),
        0x84..=0x85 => Ok(Class::Does(Task::One(One::Inv, wide))),
        0x86..=0x87 => Ok(Class::Does(Task::One(One::Clr, wide))),
        0x88..=0x89 => Ok(Class::Does(Task::Fetch(wide))),
        0x8A..=0x8B => Ok(Class::Does(Task::Case(wide))),
        0x8C..=0x8D => Ok(Class::Does(Task::Push(wide))),
        0x8E..=0x8F => Ok(Class::Does(Task::One(One::Cz, wide))),
        0x90..=0x91 => Ok(Class::Does(Task::One(One::Inc, wide))),
        0x92..=0x93 => Ok(Class::Does(Task::One(One::Dec, wide))),
        0x94..=0x95 => Ok(Class::Does(Task::One(One::Inct, wide))),
        0x96..=0x97 => Ok(Class::Does(Task::One(One::Dect, wide))),
        0x98..=0x9F => Err(Why::NoSuch),
        0xA0..=0xA3 => Ok(Class::Does(Task::Two(Two::Add, imm, wide))),
        0xA4..=0xA7 => Ok(Class::Does(Task::Two(Two::Sub, imm, wide))),
        0xA8..=0xAB => Ok(Class::Does(Task::Mul(imm, wide))),
        0xAC..=0xAF => Ok(Class::Does(Task::Div(imm, wide))),
        0xB0..=0xB3 => Ok(Class::Does(Task::Two(Two::And, imm, wide))),
        0xB4..=0xB7 => Ok(Class::Does(Task::Two(Two::Or, imm, wide))),
        0xB8..=0xBB => Ok(Class::Does(Task::Two(Two::Xor, imm, wide))),
        0xBC..=0xBF => Ok(Class::Does(Task::Two(Two::St, imm, wide))),
        0xC0..=0xC1 => Ok(Class::Does(Task::Ex(wide))),
        0xC2..=0xC3 => Err(Why::NoSuch),
        0xC4..=0xC7 => Ok(Class::Does(Task::Two(Two::Ch, imm, wide))),
        0xC8..=0xCB => Ok(Class::Does(Task::Two(Two::Che, imm, wide))),
        0xCC..=0xCF => Ok(Class::Does(Task::Two(Two::Cgt, imm, wide))),
        0xD0..=0xD3 => Ok(Class::Does(Task::Two(Two::Cge, imm, wide))),
        0xD4..=0xD7 => Ok(Class::Does(Task::Two(Two::Ceq, imm, wide))),
        0xD8..=0xDB => Ok(Class::Does(Task::Two(Two::Clog, imm, wide))),
        0xDC..=0xDF => Ok(Class::Does(Task::Two(Two::Sra, imm, wide))),
        0xE0..=0xE3 => Ok(Class::Does(Task::Two(Two::Sll, imm, wide))),
        0xE4..=0xE7 => Ok(Class::Does(Task::Two(Two::Srl, imm, wide))),
        0xE8..=0xEB => Ok(Class::Does(Task::Two(Two::Src, imm, wide))),
        0xEC => Err(Why::NoSuch),
        0xED => Ok(Class::Does(Task::Coinc)),
        0xEE..=0xF3 => Err(Why::NoSuch),
        0xF4..=0xF7 => Ok(Class::Starts(imm, wide)),
        0xF8..=0xFF => Err(Why::NoSuch),
    }
}
