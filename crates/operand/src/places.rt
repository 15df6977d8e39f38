// A cell of the pad or of VDP RAM, as an operand names it.
ghost use Rattle.std.specs.Prelude.{◌≡◌, ◌+◌, ◌<◌, ◌≤◌};
ghost use Rattle.rules.specs.Answers;
ghost use Rattle.rules.specs.Operands.{in_reach, first_out, past, is_buffer};
ghost use Rattle.machine.specs.Meaning.{kind_of, why_of};
ghost use Rattle.operand.specs.Meaning.{cell_of};

use machine::answers::Why;
use machine::cells;
use machine::memory::Memory;

#[derive(Clone, Copy)]
pub enum Place {
    Cpu(u16),
    Vdp(u16),
}

impl Place {
    pub fn memory(self) -> Memory
        ensures { kind_of result ≡ (cell_of self).kind }
    {
        match self {
            Place::Cpu(_) => Memory::Cpu,
            Place::Vdp(_) => Memory::Vdp,
        }
    }

    // Where in its memory it is.
    pub fn at(self) -> u16
        ensures { result ≡ (cell_of self).at }
    {
        match self {
            Place::Cpu(a) | Place::Vdp(a) => a,
        }
    }

    // n bytes from it on are in range.
    pub fn in_reach(self, n: usize) -> bool
        requires { n ≤ 2 }
        ensures { result ≡ in_reach n (cell_of self) }
    {
        match self {
            Place::Cpu(a) => a as usize + n <= cells::PAD_REACH,
            Place::Vdp(a) => a as usize + n <= cells::VDP_REACH,
        }
    }

    // The refusal of a place out of range: of a word, the first byte that is.
    pub fn outside(self) -> Why
        ensures { why_of result ≡ Answers.outside (cell_of self).kind (first_out (cell_of self)) }
    {
        match self {
            Place::Cpu(a) => Why::OffCpu(a.max(cells::PAD_REACH as u16)),
            Place::Vdp(a) => Why::OffVdp(a.max(cells::VDP_REACH as u16)),
        }
    }

    // The place n further on.
    pub fn beyond(self, n: u16) -> Place
        requires { (cell_of self).at + n < 65536 }
        ensures { cell_of result ≡ past n (cell_of self) }
    {
        match self {
            Place::Cpu(a) => Place::Cpu(a + n),
            Place::Vdp(a) => Place::Vdp(a + n),
        }
    }

    // The character buffer.
    pub fn is_buffer(self) -> bool
        ensures { result ≡ is_buffer (cell_of self) }
    {
        match self {
            Place::Cpu(a) => a as usize == cells::BUFFER,
            Place::Vdp(_) => false,
        }
    }
}
