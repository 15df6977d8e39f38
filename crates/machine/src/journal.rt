// The journal: a mark taken, words put back from the top, and the newest mark found.
// Words are put back over the parts and not a `Machine`: a step back makes none, and `Became` speaks of what was lent.
ghost use Rattle.std.specs.Prelude.{◌≡◌, ◌≤◌, length, ltb};
ghost use Rattle.rules.specs.Machine.{◌also◌, area_of, extent, flagged, writable};
ghost use Rattle.ring.specs.declared.book.Book as declared;
ghost use Rattle.rules.specs.Journal as words;
ghost use Rattle.rules.specs.Journal.{note, restore, undo_top};
ghost use Rattle.machine.specs.Meaning.{◌&◌, kind_of, Image, Pad, Vram, Regs, Journal, TakesMark, Puts, Became, Finds};

use crate::answers::Why;
use crate::memory::Memory;
use crate::notes::Note;
use crate::state::Machine;
use crate::{cells, grom};
use ring::book;
use ring::book::Book;

impl Machine<'_> {
    // The mark word of a step that began at `pc` with this source flag.
    pub fn take_mark(&mut self, pc: u16, source: bool) -> Result<(), Why>
        ensures { TakesMark (flagged pc source) self result }
    {
        self.lay(number::words::mark_of(pc, source))
    }
}

// A byte into a cell, if there is one. By a test: of `get_mut` no proof was found that the other bytes stay.
pub(crate) fn put(memory: &mut [u8], at: usize, b: u8)
    ensures { Puts at b memory }
{
    if at < memory.len() {
        memory[at] = b;
    }
}

// What a word says, put back into its cell.
#[inline]
fn put_back(image: &mut [u8], pad: &mut [u8], vram: &mut [u8], regs: &mut [u8], w: u32)
    ensures { (b : declared.Book) → Became (restore (note w)) (Image image & Pad pad & Vram vram & Regs regs) b b }
{
    match Note::of(w) {
        Some(Note::Stood(Memory::Cpu, at, b)) => put(pad, at, b),
        Some(Note::Stood(Memory::Vdp, at, b)) => put(vram, at, b),
        Some(Note::Stood(Memory::Register, at, b)) => put(regs, at, b),
        Some(Note::Stood(Memory::Grom, at, b)) => put(image, at, b),
        Some(Note::Mark(_)) | None => {}
    }
}

// The top word put back, and 0 left in it.
#[inline]
fn undo_top(
    image: &mut [u8],
    pad: &mut [u8],
    vram: &mut [u8],
    regs: &mut [u8],
    journal: &mut [u32],
    b: Book,
) -> Book
    requires { b.used ≤ length journal.old }
    ensures { Became (undo_top b.used) (Image image & Pad pad & Vram vram & Regs regs & Journal journal) b result }
{
    let used = b.used;
    if used == 0 {
        return b;
    }
    let top = used - 1;
    let w = book::word_at(journal, b, top);
    let below = book::wipe(journal, b, top);
    put_back(image, pad, vram, regs, w);
    below
}

// The top n words, from the top down. In line, since a call would take the book through memory.
#[inline]
pub fn undo(
    image: &mut [u8],
    pad: &mut [u8],
    vram: &mut [u8],
    regs: &mut [u8],
    journal: &mut [u32],
    book: Book,
    n: usize,
) -> Book
    requires { book.used ≤ length journal.old }
    ensures { Became (words.undo n) (Image image & Pad pad & Vram vram & Regs regs & Journal journal) book result }
{
    let mut b = book;
    for _ in 0..n {
        b = undo_top(image, pad, vram, regs, journal, b);
    }
    b
}

// A cell that a store may have been to: of an image of `size` bytes, one in a writable group.
fn is_cell(kind: Memory, at: usize, size: usize, groups: u8) -> bool
    ensures { result ≡ (ltb at (extent (area_of size groups) (kind_of kind)) also writable (area_of size groups) (kind_of kind) at) }
{
    match kind {
        Memory::Cpu => at < cells::PAD_REACH,
        Memory::Vdp => at < cells::VDP_REACH,
        Memory::Register => at < cells::REGISTERS,
        Memory::Grom => at < size && grom::writable(groups, at),
    }
}

// A mark without a surplus bit, or a store's word whose address names a cell.
pub fn sound(w: u32, size: usize, groups: u8) -> bool
    ensures { result ≡ words.sound (area_of size groups) (note w) }
{
    match Note::of(w) {
        Some(Note::Stood(kind, at, _)) => is_cell(kind, at, size, groups),
        Some(Note::Mark(a)) => a < 131072,
        None => false,
    }
}

// The newest mark: how many words it and those above it are, its address and its source flag.
#[derive(Clone, Copy)]
pub struct Mark {
    pub words: usize,
    pub pc: u16,
    pub source: bool,
}

// None where there is no sound record.
pub fn find(journal: &[u32], b: Book, size: usize, groups: u8) -> Option<Mark>
    requires { b.used ≤ length journal.now }
    ensures { Finds size groups journal b result }
{
    for top in (0..b.used).rev() {
        let w = book::word_at(journal, b, top);
        if !sound(w, size, groups) {
            return None;
        }
        match Note::of(w) {
            Some(Note::Stood(_, _, _)) => {}
            Some(Note::Mark(a)) => {
                let words = b.used - top;
                let pc = (a % 65536) as u16;
                let source = 65536 <= a;
                return Some(Mark { words, pc, source });
            }
            None => return None,
        }
    }
    None
}
