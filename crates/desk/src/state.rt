// The machine on the desk: its parts, and where it stands beside them.
ghost use Rattle.std.specs.Prelude.{◌≡◌, ◌+◌, ◌/◌, ◌≤◌, length};
ghost use Rattle.lines.specs.Digits.{bytes};
ghost use Rattle.lines.specs.Lines.{size};
ghost use Rattle.lines.specs.Meaning.{part_of};
ghost use Rattle.desk.specs.Desk.{placed, start};
ghost use Rattle.desk.specs.Meaning.{outset, state_of, Ran};

use bench::at::At;
use bench::runs;
use bench::runs::Report;
use lines::parts::Part;
use lines::read::Bytes;

// The parts of which a run prints each cell that it changed.
#[derive(Clone, Copy, PartialEq, Eq)]
pub struct Cells {
    pub pad: [u8; 256],
    pub vram: [u8; 16384],
    pub regs: [u8; 8],
}

#[derive(Clone, Copy)]
pub struct Machine {
    pub image: [u8; 32768],
    pub cells: Cells,
    pub journal: [u32; 16384],
    pub at: At,
}

// Where it stands before the first line: at 0, with nothing in its journal, which is no ring, and no group to be written.
pub fn first() -> At
    ensures { result ≡ outset }
{
    At {
        pc: 0,
        used: 0,
        ring: false,
        place: 0,
        writable: 0,
        source: false,
    }
}

impl Machine {
    // All 0.
    pub fn new() -> Self
        ensures { state_of result ≡ start }
    {
        let cells = Cells {
            pad: [0; 256],
            vram: [0; 16384],
            regs: [0; 8],
        };
        Machine {
            image: [0; 32768],
            cells,
            journal: [0; 16384],
            at: first(),
        }
    }

    // The bytes of a line, laid over their part.
    pub fn set(&mut self, part: Part, line: Bytes)
        requires { line.at + length line.digits.now / 2 ≤ size (part_of part) }
        ensures { state_of self.new ≡ placed (part_of part) line.entry.at (bytes line.entry.digits.now) (state_of self.old) }
    {
        match part {
            Part::Grom => line.lay(&mut self.image),
            Part::Pad => line.lay(&mut self.cells.pad),
            Part::Vdp => line.lay(&mut self.cells.vram),
            Part::Reg => line.lay(&mut self.cells.regs),
        }
    }

    // Up to n steps.
    pub fn run(&mut self, n: u32) -> Report
        ensures { Ran n self result }
    {
        let report = runs::run(
            &mut self.image,
            &mut self.cells.pad,
            &mut self.cells.vram,
            &mut self.cells.regs,
            &mut self.journal,
            self.at,
            n,
        );
        self.at = report.at;
        report
    }
}
