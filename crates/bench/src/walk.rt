// Steps and step-backs.
ghost use Rattle.std.specs.Prelude.{◌≡◌, ◌≤◌, length};
ghost use Rattle.std.specs.Borrow.{Array, Lends, sem, u8 as byte};
ghost use Rattle.rules.specs.Answers.{answer_for};
ghost use Rattle.rules.specs.Calls.{instruction};
ghost use Rattle.rules.specs.Journal.{undo};
ghost use Rattle.machine.specs.Meaning.{why_of, ◌&◌, Became, Groups, Image, Journal, Pad, Regs, Vram};
ghost use Rattle.bench.specs.Numbers.{of_reply};
ghost use Rattle.bench.specs.Meaning.{Fit, Replies, Attempts, refusal, stepping, undoing, backing};
ghost use Rattle.bench.specs.Making.{Stands, Begun, Tries, Settles, Steps};

use crate::at::At;
use crate::fits;
use machine::answers::Why;
use machine::state::Machine;
use opcode::class::Class;
use ring::book;
use ring::book::Book;

// What a call leaves: why it was refused, or that it was done, how many bytes it stored, and where the machine stands.
#[derive(Clone, Copy)]
pub struct Reply {
    pub refusal: Option<Why>,
    pub stores: u64,
    pub at: At,
}

pub(crate) fn turned_down(why: Why, at: At) -> Reply
    ensures { of_reply result ≡ refusal (answer_for (why_of why)) at }
{
    Reply {
        refusal: Some(why),
        stores: 0,
        at,
    }
}

// ---- a step

// The opcode, its class, the mark, and the task or the start of a sound list. The source flag that it leaves.
#[tactic(auto, using(crate::proofs::Trying::trials), unfolding(crate::specs::Making::trying))]
fn attempt(m: &mut Machine<'_>, source: bool) -> Result<bool, Why>
    ensures { Tries source m result }
{
    let pc = m.pc;
    let op = m.next_byte()?;
    let class = opcode::class::class_of(op)?;
    m.take_mark(pc, source)?;
    match class {
        Class::Does(task) => {
            opcode::task::perform(m, task)?;
            Ok(source)
        }
        Class::Starts(imm, wide) => sound::start::start(m, imm, wide),
    }
}

// The top n words put back: a machine's arrays lent as slices.
fn undo(
    image: &mut [u8],
    pad: &mut [u8; 256],
    vram: &mut [u8; 16384],
    regs: &mut [u8; 8],
    journal: &mut [u32],
    book: Book,
    n: usize,
) -> Book
    requires { book.used ≤ length journal.old }
    ensures { Became (undo n) (Image image & Pad pad & Vram vram & Regs regs & Journal journal) book result }
{
    machine::journal::undo(image, pad, vram, regs, journal, book, n)
}

// What was attempted from `at`, and the source flag that it leaves: done, or on a refusal all put back.
pub(crate) fn settle(m: &mut Machine<'_>, at: At, tried: Result<bool, Why>) -> Reply
    requires { Begun at m.old tried }
    ensures { Settles m at tried result }
{
    let book = book::close(m.journal, at.book(), m.used);
    let taken = book.used - book.older;
    match tried {
        Ok(source) => Reply {
            refusal: None,
            stores: (taken - 1) as u64,
            at: At::rest(m.pc, book, at.writable, source),
        },
        Err(why) => {
            let back = undo(m.image, m.pad, m.vram, m.regs, m.journal, book, taken);
            turned_down(why, At::rest(at.pc, back, at.writable, at.source))
        }
    }
}

// A step of a machine that stands at `at`.
fn step_machine(m: &mut Machine<'_>, at: At) -> Reply
    requires { Stands at m.old }
    ensures { Steps m at result }
{
    let tried = attempt(m, at.source);
    settle(m, at, tried)
}

// With the parts whose lengths are known as arrays. The machine is made here and in `ticks`: where one function made it for both, what the lent slices end with
// was not known.
#[tactic(auto, unfolding(machine::specs::Meaning::kept))]
fn step_arrays(
    image: &mut [u8],
    map: &mut [u8],
    pad: &mut [u8; 256],
    vram: &mut [u8; 16384],
    regs: &mut [u8; 8],
    journal: &mut [u32],
    at: At,
) -> Reply
    requires { at.used ≤ length journal.old }
    ensures { Attempts (Image image & Groups at.writable & Pad pad & Vram vram & Regs regs & Journal journal) map at result }
{
    let first = at.first(journal.len());
    let mut m = Machine {
        image,
        map,
        pad,
        vram,
        regs,
        journal,
        first,
        older: at.used,
        place: at.place,
        used: at.count(),
        pc: at.pc,
        groups: at.writable,
    };
    step_machine(&mut m, at)
}

// A slice whose length is known, as an array.
pub(crate) fn array<const N: usize>(s: &mut [u8]) -> &mut [u8; N]
    requires { length s.old ≡ N }
    ensures* writes_back { sem 𝓛 (Lends (Array byte 0) (Array byte 0) s.entry result (λ w. w)) }
    ensures now { result.now ≡ s.old }
{
    s.as_mut_array().unwrap()
}

// A step past test 11.
pub(crate) fn fit_step(
    image: &mut [u8],
    map: &mut [u8],
    pad: &mut [u8],
    vram: &mut [u8],
    regs: &mut [u8],
    journal: &mut [u32],
    at: At,
) -> Reply
    requires { Fit pad vram regs journal at }
    ensures { Attempts (Image image & Groups at.writable & Pad pad & Vram vram & Regs regs & Journal journal) map at result }
{
    step_arrays(
        image,
        map,
        array(pad),
        array(vram),
        array(regs),
        journal,
        at,
    )
}

pub fn step(
    image: &mut [u8],
    pad: &mut [u8],
    vram: &mut [u8],
    regs: &mut [u8],
    journal: &mut [u32],
    at: At,
) -> Reply
    ensures { Replies (stepping instruction) (Image image & Groups at.writable & Pad pad & Vram vram & Regs regs & Journal journal) at result }
{
    let fit = fits::all_fit(
        image.len(),
        pad.len(),
        vram.len(),
        regs.len(),
        journal.len(),
        at,
    );
    if !fit {
        return turned_down(Why::WrongLength, at);
    }
    fit_step(image, &mut [], pad, vram, regs, journal, at)
}

// ---- a step back

// A step back past test 11.
fn fit_back(
    image: &mut [u8],
    pad: &mut [u8],
    vram: &mut [u8],
    regs: &mut [u8],
    journal: &mut [u32],
    at: At,
) -> Reply
    requires { Fit pad vram regs journal at }
    ensures { Replies undoing (Image image & Groups at.writable & Pad pad & Vram vram & Regs regs & Journal journal) at result }
{
    let book = at.book();
    let Some(found) = machine::journal::find(journal, book, image.len(), at.writable) else {
        return turned_down(Why::NoRecord, at);
    };
    let left = machine::journal::undo(image, pad, vram, regs, journal, book, found.words);
    Reply {
        refusal: None,
        stores: 0,
        at: At::rest(found.pc, left, at.writable, found.source),
    }
}

pub fn step_back(
    image: &mut [u8],
    pad: &mut [u8],
    vram: &mut [u8],
    regs: &mut [u8],
    journal: &mut [u32],
    at: At,
) -> Reply
    ensures { Replies backing (Image image & Groups at.writable & Pad pad & Vram vram & Regs regs & Journal journal) at result }
{
    let fit = fits::all_fit(
        image.len(),
        pad.len(),
        vram.len(),
        regs.len(),
        journal.len(),
        at,
    );
    if !fit {
        return turned_down(Why::WrongLength, at);
    }
    fit_back(image, pad, vram, regs, journal, at)
}
