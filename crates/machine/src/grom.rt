// The image: read at pc, which moves on; and its writable groups.
ghost use Rattle.std.specs.Prelude.{◌≡◌, ◌/◌};
ghost use Rattle.rules.specs.Machine.{bit, group};
ghost use Rattle.rules.specs.Rules.{next_byte, next_word};
ghost use Rattle.machine.specs.Meaning.{Does, Unwritten};

use crate::answers::Why;
use crate::memory::Memory;
use crate::state::Machine;
use number::{addresses, words};

impl Machine<'_> {
    #[tactic(auto, using(crate::proofs::Laws::steps, crate::proofs::Acts::reading))]
    pub fn next_byte(&mut self) -> Result<u8, Why>
        ensures does { Does next_byte self result }
        ensures words { Unwritten self }
    {
        let b = self.load(Memory::Grom, self.pc as usize)?;
        self.pc = addresses::onward(self.pc);
        Ok(b)
    }

    #[tactic(auto, using(crate::proofs::Laws::steps), unfolding(rules::specs::Rules::next_word))]
    pub fn next_word(&mut self) -> Result<u16, Why>
        ensures does { Does next_word self result }
        ensures words { Unwritten self }
    {
        let high = self.next_byte()?;
        let low = self.next_byte()?;
        Ok(words::word_of(high, low))
    }
}

// Whether an address is in a group whose bit is set: there are eight.
pub fn writable(groups: u8, at: usize) -> bool
    ensures { result ≡ bit (at / group) groups }
{
    let g = at / 8192;
    g < 8 && number::bits::bit(g as u32, groups)
}
