// Journals that are rings: what the program, whose journal is none, can't show.
ghost use Rattle.std.specs.Prelude.{◌≤◌};

use crate::shown;
use crate::trial::{Machine, lay};
use bench::at::At;
use bench::runs::Report;
use desk::state::first;
use std::io;
use std::io::Write;

// INC @>00, which takes three words, and BR >0000, which takes two, again and again.
const LOOP: [u8; 4] = [0x90, 0x00, 0x40, 0x00];

// The title screen of the examples.
const TITLE: [u8; 42] = [
    0x04, 0x17, 0x08, 0xFE, 0x08, 0xFF, 0x06, 0x53, 0x2A, 0x8B, 0xC4, 0x00, 0x2A, 0x91, 0x00, 0x2A,
    0x8B, 0xFB, 0x00, 0x0B, 0x53, 0x2A, 0xFE, 0x0B, 0xFF, 0x09, 0x0D, 0x54, 0x49, 0x2D, 0x39, 0x39,
    0x2F, 0x34, 0x41, 0x20, 0x42, 0x45, 0x4E, 0x43, 0x48, 0xFB,
];

// Where it ends: EXIT, or BR >0000, which draws it again.
const ENDS: [u8; 2] = [0x0B, 0x00];

const AGAIN: [u8; 2] = [0x40, 0x00];

// A machine that rests at an address, with a ring in whose journal nothing is.
fn ring_at(pc: u16) -> At {
    At {
        pc,
        ring: true,
        ..first()
    }
}

// So many steps and then so many steps back, each with the journal that it leaves, of N words.
fn try_calls<W: Write, const N: usize>(
    output: &mut W,
    what: &[u8],
    from: At,
    steps: u32,
    backs: u32,
) -> io::Result<()>
    requires { N ≤ 1024 }
{
    let mut image = [0; 8192];
    let mut journal = [0; N];
    lay(&mut image, &[(0, &LOOP)]);
    let mut machine = Machine::new(&mut image, &mut journal, from);
    // Neither instruction needs a stack: pad is all zeros here.
    machine.cells.pad[0x73] = 0;
    output.write_all(what)?;
    for _ in 0..steps {
        let report = machine.run(1);
        show_call(output, report, machine.journal)?;
    }
    for _ in 0..backs {
        let report = machine.step_back();
        show_call(output, report, machine.journal)?;
    }
    Ok(())
}

fn show_call<W: Write>(output: &mut W, report: Report, journal: &[u32]) -> io::Result<()> {
    shown::show_answer(output, report)?;
    shown::show_kept(output, report.at)?;
    shown::show_journal(output, journal)
}

// Steps back for as long as they are accepted: how many, and the machine at the oldest kept step.
fn walk_back<W: Write>(output: &mut W, machine: &mut Machine) -> io::Result<()> {
    for done in 0..100 {
        let report = machine.step_back();
        if report.refusal.is_some() {
            shown::show_number(output, b"steps back\t", done)?;
            return shown::show_run(output, report, &machine.cells);
        }
    }
    Ok(())
}

// 30 steps of the title screen, and back; `last` is the code where it ends.
fn try_title<W: Write, const N: usize>(
    output: &mut W,
    what: &[u8],
    last: [u8; 2],
    ring: bool,
) -> io::Result<()>
    requires { N ≤ 1024 }
{
    let mut image = [0; 8192];
    let mut journal = [0; N];
    lay(&mut image, &[(0, &TITLE), (0x002A, &last)]);
    let at = At { ring, ..first() };
    let mut machine = Machine::new(&mut image, &mut journal, at);
    let report = machine.run(30);
    output.write_all(what)?;
    shown::show_answer(output, report)?;
    shown::show_kept(output, report.at)?;
    walk_back(output, &mut machine)
}

// BACK takes two words, FMT 237, and BR two.
fn titles<W: Write>(output: &mut W) -> io::Result<()> {
    let one = b"a title screen, 237 words: BACK is dropped\n";
    try_title::<W, 237>(output, one, ENDS, true)?;
    try_title::<W, 237>(output, b"the same, no ring: FMT is 10\n", ENDS, false)?;
    let short = b"236 words: FMT is 10, and BACK is lost\n";
    try_title::<W, 236>(output, short, ENDS, true)?;
    try_title::<W, 1024>(output, b"drawn ten times, 1024 words\n", AGAIN, true)?;
    let few = b"the same, no ring: the fifth FMT is 10\n";
    try_title::<W, 1024>(output, few, AGAIN, false)
}

pub(crate) fn all<W: Write>(output: &mut W) -> io::Result<()> {
    let seven = b"a ring of seven words, five steps, three steps back\n";
    try_calls::<W, 7>(output, seven, ring_at(0), 5, 3)?;
    let two = b"two words: BR is kept, INC is 10, and BR is lost\n";
    try_calls::<W, 2>(output, two, ring_at(2), 2, 1)?;
    let past = At {
        place: 7,
        ..ring_at(0)
    };
    try_calls::<W, 7>(output, b"a place past the journal: 11\n", past, 1, 0)?;
    let plain = At {
        ring: false,
        ..past
    };
    try_calls::<W, 7>(output, b"the same, no ring: not looked at\n", plain, 1, 0)?;
    titles(output)
}
