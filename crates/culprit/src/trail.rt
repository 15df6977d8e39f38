// The kept words, oldest first, and what they say of one cell. The parts come as the public call was lent them.
ghost use Rattle.std.specs.Prelude.{◌≡◌, ◌+◌, ◌≤◌, ◌<◌, ◌^◌, length, get_or, take};
ghost use Rattle.rules.specs.Machine.{upon, area_of};
ghost use Rattle.rules.specs.Answers.{number};
ghost use Rattle.rules.specs.Journal.{note, turned};
ghost use Rattle.machine.specs.Meaning.{kind_of};
ghost use Rattle.culprit.specs.Culprit as culprit;
ghost use Rattle.culprit.specs.Culprit.{same_cell, trail, later, stamped, told, marked, answered, fit_who};
ghost use Rattle.culprit.specs.Meaning.{seen_by, why_in, found_of, wrote_of, after_of, trail_of};

use machine::answers::Why;
use machine::memory::Memory;
use machine::notes::Note;
use ring::book;
use ring::book::Book;

// The step: how many kept ones came after it, where it began, and the bytes before it and after it.
#[derive(Clone, Copy)]
pub struct Culprit {
    pub after: usize,
    pub pc: u16,
    pub before: u8,
    pub left: u8,
}

// Why no step is looked for.
#[derive(Clone, Copy)]
pub enum Refusal {
    WrongLength,
    NoRecord,
}

impl Refusal {
    // As a call says it: 11 or 12.
    pub fn number(self) -> u8
        ensures { result ≡ number (why_in self) }
    {
        match self {
            Refusal::WrongLength => Why::WrongLength.number(),
            Refusal::NoRecord => Why::NoRecord.number(),
        }
    }
}

// The step, or that none was kept.
pub type Wrote = Result<Option<Culprit>, Refusal>;

// The newest of the steps that stored to the cell: how many came after it, where it began, and the byte that stood there before it.
#[derive(Clone, Copy)]
pub struct Writer {
    pub after: usize,
    pub pc: u16,
    pub before: u8,
}

// Of the words so far: where the newest step began; and who stored to the cell.
#[derive(Clone, Copy)]
pub struct Trail {
    pub pc: u16,
    pub by: Option<Writer>,
}

// Every word has a mark below it if the oldest is one.
fn begins(journal: &[u32], b: Book) -> bool
    requires { b.used ≤ length journal.now }
    ensures { result ≡ marked (take b.used (turned b.ring b.place journal.now)) }
{
    b.used == 0 || number::words::is_mark(book::word_at(journal, b, 0))
}

// A step more: of whoever stored to the cell it came after.
fn began(t: Trail, pc: u16) -> Trail
    requires { after_of t + 1 < 2 ^ 64 }
    ensures { (trail_of result ≡ trail pc (later (trail_of t).by)) × (after_of result ≤ after_of t + 1) }
{
    let by = match t.by {
        Some(by) => Some(Writer {
            after: by.after + 1,
            ..by
        }),
        None => None,
    };
    Trail { pc, by }
}

// A store to the cell: the newest step's first one has the byte before it.
fn stored(t: Trail, b: u8) -> Trail
    ensures { (trail_of result ≡ trail t.pc (stamped t.pc b (trail_of t).by)) × (after_of result ≤ after_of t) }
{
    if let Some(by) = t.by {
        if by.after == 0 {
            return t;
        }
    }
    let by = Writer {
        after: 0,
        pc: t.pc,
        before: b,
    };
    Trail {
        pc: t.pc,
        by: Some(by),
    }
}

// Whether a store's cell is the one that is asked for.
fn is_it(kind: Memory, there: usize, which: Memory, at: usize) -> bool
    ensures { result ≡ same_cell (kind_of which) at (kind_of kind) there }
{
    which == kind && at == there
}

// One word more.
fn tell(t: Trail, which: Memory, at: usize, w: u32) -> Trail
    requires { after_of t + 1 < 2 ^ 64 }
    ensures { (trail_of result ≡ told (kind_of which) at (note w) (trail_of t)) × (after_of result ≤ after_of t + 1) }
{
    match Note::of(w) {
        Some(Note::Stood(kind, there, b)) => {
            if is_it(kind, there, which, at) {
                stored(t, b)
            } else {
                t
            }
        }
        Some(Note::Mark(a)) => began(t, (a % 65536) as u16),
        None => t,
    }
}

// The step that was found, with the byte that stands in the cell.
fn named(t: Trail, left: u8) -> Option<Culprit>
    ensures { found_of result ≡ culprit.named left (trail_of t).by }
{
    let by = t.by?;
    Some(Culprit {
        after: by.after,
        pc: by.pc,
        before: by.before,
        left,
    })
}

// All words are tested before anything is named.
fn trace(
    journal: &[u32],
    b: Book,
    size: usize,
    groups: u8,
    which: Memory,
    at: usize,
    left: u8,
) -> Wrote
    requires { b.used ≤ length journal.now }
    ensures { wrote_of result ≡ answered (area_of size groups) (kind_of which) at left (take b.used (turned b.ring b.place journal.now)) }
{
    if !begins(journal, b) {
        return Err(Refusal::NoRecord);
    }
    let mut t = Trail { pc: 0, by: None };
    for u in 0..b.used {
        let w = book::word_at(journal, b, u);
        if !machine::journal::sound(w, size, groups) {
            return Err(Refusal::NoRecord);
        }
        t = tell(t, which, at, w);
    }
    Ok(named(t, left))
}

// The byte in a cell; 0 where there is no such cell, which no sound word names.
fn byte_in(memory: &[u8], at: usize) -> u8
    ensures { result ≡ get_or memory.now at 0 }
{
    memory.get(at).copied().unwrap_or(0)
}

// The byte that stands in the cell now: no later kept step stored there, so the one that is found left it.
fn standing(image: &[u8], pad: &[u8], vram: &[u8], regs: &[u8], which: Memory, at: usize) -> u8
    ensures { result ≡ get_or (upon (kind_of which) pad.now vram.now regs.now image.now) at 0 }
{
    match which {
        Memory::Cpu => byte_in(pad, at),
        Memory::Vdp => byte_in(vram, at),
        Memory::Register => byte_in(regs, at),
        Memory::Grom => byte_in(image, at),
    }
}

// Who wrote the cell, past test 11. Nothing is lent to be changed.
pub fn who(
    image: &[u8],
    pad: &[u8],
    vram: &[u8],
    regs: &[u8],
    journal: &[u32],
    b: Book,
    groups: u8,
    which: Memory,
    at: usize,
) -> Wrote
    requires { b.used ≤ length journal.now }
    ensures { wrote_of result ≡ fit_who (kind_of which) at (seen_by image pad vram regs journal groups b) }
{
    let left = standing(image, pad, vram, regs, which, at);
    trace(journal, b, image.len(), groups, which, at, left)
}
