// A load and a journalled store, of whichever memory: the pad, VDP RAM, the registers or the image.
ghost use Rattle.std.specs.Prelude.{◌≡◌, ◌+◌, ◌<◌, ◌^◌};
ghost use Rattle.rules.specs.Answers;
ghost use Rattle.rules.specs.Answers.{answer_for};
ghost use Rattle.rules.specs.Journal.{kind_number};
ghost use Rattle.rules.specs.Rules.{peek, peek_word, poke};
ghost use Rattle.rules.specs.Operands.{poke_word};
ghost use Rattle.machine.specs.Meaning.{why_of, kind_of, extent_of, may_store, byte_in, IsNear, Does, Unwritten, MarksIn, PutsIn, LaysIn};

use crate::answers::Why;
use crate::state::Machine;
use crate::{cells, grom, journal};
use number::words;
use ring::book;

#[derive(Clone, Copy, PartialEq, Eq)]
pub enum Memory {
    Cpu,
    Vdp,
    Register,
    Grom,
}

impl Memory {
    // Its number in the journal's words: 3 is a mark's.
    pub fn number(self) -> u32
        ensures { result ≡ kind_number (kind_of self) }
    {
        match self {
            Memory::Cpu => 0,
            Memory::Vdp => 1,
            Memory::Register => 2,
            Memory::Grom => 4,
        }
    }

    // The refusal of an address that names none of its cells.
    fn outside(self, at: usize) -> Why
        ensures { answer_for (why_of result) ≡ answer_for (Answers.outside (kind_of self) at) }
    {
        let a = (at % 65536) as u16;
        match self {
            Memory::Cpu => Why::OffCpu(a),
            Memory::Vdp => Why::OffVdp(a),
            Memory::Register => Why::OffRegister,
            Memory::Grom => Why::OffGrom(a),
        }
    }
}

impl Machine<'_> {
    // How many of its cells a program may reach.
    fn reach(&self, k: Memory) -> usize
        ensures { result ≡ extent_of k self.now }
    {
        match k {
            Memory::Cpu => cells::PAD_REACH,
            Memory::Vdp => cells::VDP_REACH,
            Memory::Register => cells::REGISTERS,
            Memory::Grom => self.image.len(),
        }
    }

    // Whether it may store into one of them.
    fn may_store(&self, k: Memory, at: usize) -> bool
        ensures { result ≡ may_store k at self.now }
    {
        match k {
            Memory::Cpu | Memory::Vdp | Memory::Register => true,
            Memory::Grom => grom::writable(self.groups, at),
        }
    }

    fn byte(&self, k: Memory, at: usize) -> u8
        requires { at < extent_of k self.now }
        ensures { result ≡ byte_in k at self.now }
    {
        let cells: &[u8] = match k {
            Memory::Cpu => &self.pad[..],
            Memory::Vdp => &self.vram[..],
            Memory::Register => &self.regs[..],
            Memory::Grom => self.image,
        };
        cells[at]
    }

    fn put(&mut self, k: Memory, at: usize, b: u8)
        requires { at < extent_of k self.old }
        ensures { PutsIn k at b self }
    {
        match k {
            Memory::Cpu => self.pad[at] = b,
            Memory::Vdp => self.vram[at] = b,
            Memory::Register => self.regs[at] = b,
            Memory::Grom => self.image[at] = b,
        }
    }

    // A byte of the image is marked where it is read.
    fn mark(&mut self, k: Memory, at: usize)
        ensures marks { MarksIn k at self }
        ensures words { Unwritten self }
    {
        match k {
            Memory::Cpu | Memory::Vdp | Memory::Register => {}
            Memory::Grom => journal::put(self.map, at, 1),
        }
    }

    // A word onto the journal. A call would take longer than the word: it is in line in every store.
    #[inline(always)]
    pub(crate) fn lay(&mut self, w: u32) -> Result<(), Why>
        ensures { LaysIn w self result }
    {
        if self.journal.len() <= self.used {
            return Err(Why::NoRoom);
        }
        book::lay(self.journal, self.first, self.used, w);
        self.used += 1;
        Ok(())
    }

    // A load whose memory the compiler knows.
    #[inline(always)]
    fn load_from(&mut self, k: Memory, at: usize) -> Result<u8, Why>
        ensures does { Does (peek (kind_of k) at) self result }
        ensures words { Unwritten self }
    {
        if at < self.reach(k) {
            let b = self.byte(k, at);
            self.mark(k, at);
            return Ok(b);
        }
        Err(k.outside(at))
    }

    // Each memory by its own name, so that it is asked once which one it is.
    #[inline(always)]
    pub fn load(&mut self, k: Memory, at: usize) -> Result<u8, Why>
        ensures does { Does (peek (kind_of k) at) self result }
        ensures words { Unwritten self }
    {
        match k {
            Memory::Cpu => self.load_from(Memory::Cpu, at),
            Memory::Vdp => self.load_from(Memory::Vdp, at),
            Memory::Register => self.load_from(Memory::Register, at),
            Memory::Grom => self.load_from(Memory::Grom, at),
        }
    }

    // High byte first.
    #[tactic(auto, using(crate::proofs::Laws::steps), unfolding(rules::specs::Rules::peek_word))]
    pub fn load_word(&mut self, k: Memory, at: usize) -> Result<u16, Why>
        requires { at < 2 ^ 32 }
        ensures does { Does (peek_word (kind_of k) at) self result }
        ensures words { Unwritten self }
    {
        let high = self.load(k, at)?;
        let low = self.load(k, at + 1)?;
        Ok(words::word_of(high, low))
    }

    // A store whose memory the compiler knows. The range is tested before the group, and both before the room.
    #[inline(always)]
    fn store_into(&mut self, k: Memory, at: usize, b: u8) -> Result<(), Why>
        requires { IsNear k at }
        ensures { Does (poke (kind_of k) at b) self result }
    {
        if self.reach(k) <= at {
            return Err(k.outside(at));
        }
        if !self.may_store(k, at) {
            return Err(Why::ReadOnly);
        }
        let old = self.byte(k, at);
        self.lay(words::pack(k.number(), at as u32, old))?;
        self.put(k, at, b);
        Ok(())
    }

    // Each memory by its own name too.
    #[inline(always)]
    pub fn store(&mut self, k: Memory, at: usize, b: u8) -> Result<(), Why>
        requires { IsNear k at }
        ensures { Does (poke (kind_of k) at b) self result }
    {
        match k {
            Memory::Cpu => self.store_into(Memory::Cpu, at, b),
            Memory::Vdp => self.store_into(Memory::Vdp, at, b),
            Memory::Register => self.store_into(Memory::Register, at, b),
            Memory::Grom => self.store_into(Memory::Grom, at, b),
        }
    }

    // High byte first, each byte a store of its own.
    #[tactic(auto, using(crate::proofs::Laws::steps), unfolding(rules::specs::Operands::poke_word))]
    pub fn store_word(&mut self, k: Memory, at: usize, w: u16) -> Result<(), Why>
        requires { IsNear k (at + 1) × (at < 2 ^ 32) }
        ensures { Does (poke_word (kind_of k) at w) self result }
    {
        self.store(k, at, words::high_of(w))?;
        self.store(k, at + 1, words::low_of(w))
    }
}
