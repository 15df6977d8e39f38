// What a journal word says, taken apart once.
ghost use Rattle.std.specs.Prelude.{◌≡◌};
ghost use Rattle.rules.specs.Journal as words;
ghost use Rattle.machine.specs.Meaning.{noted};

use crate::memory::Memory;

#[derive(Clone, Copy)]
pub enum Note {
    // The byte that stood in a cell.
    Stood(Memory, usize, u8),
    // A step began at this address, with its source flag above it.
    Mark(u32),
}

impl Note {
    // Of a word of kind 5 to 7 nothing is said.
    #[inline]
    pub fn of(w: u32) -> Option<Note>
        ensures { noted result ≡ words.note w }
    {
        let kind = match number::words::kind_of(w) {
            0 => Memory::Cpu,
            1 => Memory::Vdp,
            2 => Memory::Register,
            3 => return Some(Note::Mark(number::words::under_kind(w))),
            4 => Memory::Grom,
            _ => return None,
        };
        let at = number::words::cell_of(w) as usize;
        Some(Note::Stood(kind, at, number::words::byte_of(w)))
    }
}
