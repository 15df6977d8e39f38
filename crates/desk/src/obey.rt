// A line obeyed.
ghost use Rattle.std.specs.Prelude.{ℕ, Ok};
ghost use Rattle.lines.specs.Lines.{runs};
ghost use Rattle.lines.specs.Meaning.{Says};
ghost use Rattle.desk.specs.Desk.{heard};
ghost use Rattle.desk.specs.Meaning.{Obeys};

use crate::input::LONGEST;
use crate::show;
use crate::show::ROOM;
use crate::state::Machine;
use lines::read::Line;
use lines::{print, read};

// A line that says nothing, and how many bytes are printed of it.
#[derive(Clone, Copy)]
pub struct BadLine {
    pub count: usize,
}

// A run, and what it prints.
fn run_shown(machine: &mut Machine, n: u32, out: &mut [u8; ROOM]) -> usize
    ensures { (k : ℕ) → Obeys k (runs n) machine out (Ok result) }
{
    let was = machine.cells;
    let report = machine.run(n);
    show::put_run(out, report, &was, &machine.cells)
}

// What a line says: nothing where it is too long.
pub fn line_of(text: &[u8]) -> Option<Line<'_>>
    ensures { Says text.now result (heard text.now) }
{
    if LONGEST < text.len() {
        return None;
    }
    read::read_line(text)
}

// A line obeyed: what it does to the machine, and how many bytes are to be printed. `number` is the line's.
pub fn obey(
    text: &[u8],
    number: u64,
    machine: &mut Machine,
    out: &mut [u8; ROOM],
) -> Result<usize, BadLine>
    ensures { Obeys number (heard text.now) machine out result }
{
    let Some(line) = line_of(text) else {
        let count = print::put_bad(out, 0, number);
        return Err(BadLine { count });
    };
    match line {
        Line::Set(part, bytes) => machine.set(part, bytes),
        Line::Pc(pc) => machine.at.pc = pc,
        Line::Run(n) => return Ok(run_shown(machine, n, out)),
    }
    Ok(0)
}
