// Walks backwards: a cartridge runs into an instruction that fails, and is then stepped back to its start, with pc and viewed cells at each step.
#![tactic(auto)]

use bench::at::At;
use bench::runs::Report;
use bench::viewer::Memory;
use bench::walk::Reply;
use bench::{answers, runs, viewer, walk};
use desk::show::write_text;
use desk::state::{Cells, first};
use lines::parts::Part;
use lines::print;
use std::io;
use std::io::Write;

// ST 5 to pad >00; CALL >000A; ST to pad >E0, out of reach. At >000A: ADD 3, INC, RTN.
const CODE: [u8; 16] = [
    0xBE, 0x00, 0x05, 0x06, 0x00, 0x0A, 0xBC, 0x80, 0xE0, 0x00, 0xA2, 0x00, 0x03, 0x90, 0x00, 0x00,
];

// FMT writes three characters; MOVE brings three others, from >0020, over them; ST to pad >E0, out of reach.
const SCREEN: [u8; 17] = [
    0x08, 0x02, 0x41, 0x42, 0x43, 0xFB, 0x31, 0x00, 0x03, 0xA0, 0x00, 0x00, 0x20, 0xBC, 0x80, 0xE0,
    0x00,
];

const OTHERS: [u8; 3] = [0x58, 0x59, 0x5A];

// The desk's machine is larger: here are one group of GROM, and words for no more than the two cartridges note.
#[derive(Drop)]
struct Machine {
    image: [u8; 8192],
    cells: Cells,
    journal: [u32; 64],
    at: At,
}

impl Machine {
    // Only the subroutine stack is set.
    fn new(image: [u8; 8192]) -> Self {
        let mut pad = [0; 256];
        pad[0x73] = 0x7E;
        let cells = Cells {
            pad,
            vram: [0; 16384],
            regs: [0; 8],
        };
        Machine {
            image,
            cells,
            journal: [0; 64],
            at: first(),
        }
    }

    // Up to so many steps.
    fn run(&mut self, n: u32) -> Report {
        let report = runs::run(
            &mut self.image,
            &mut self.cells.pad,
            &mut self.cells.vram,
            &mut self.cells.regs,
            &mut self.journal,
            self.at,
            n,
        );
        self.at = report.at;
        report
    }

    fn step_back(&mut self) -> Reply {
        let reply = walk::step_back(
            &mut self.image,
            &mut self.cells.pad,
            &mut self.cells.vram,
            &mut self.cells.regs,
            &mut self.journal,
            self.at,
        );
        self.at = reply.at;
        reply
    }

    fn view(&self, memory: Memory, len: usize) -> &[u8] {
        viewer::view(&self.cells.pad, &self.cells.vram, memory, 0, len)
    }
}

fn show_answer<W: Write>(
    output: &mut W,
    answer: u8,
    steps: u32,
    stores: u64,
    address: u16,
) -> io::Result<()> {
    let mut out = [0; 75];
    let count = print::put_answer(&mut out, 0, answer, steps, stores, address);
    write_text(output, &out, count)
}

fn show_pc<W: Write>(output: &mut W, pc: u16) -> io::Result<()> {
    let mut out = [0; 8];
    let count = print::put_pc(&mut out, 0, pc);
    write_text(output, &out, count)
}

fn show_cell<W: Write>(output: &mut W, part: Part, at: u16, byte: u8) -> io::Result<()> {
    let mut out = [0; 13];
    let count = print::put_cell(&mut out, 0, part, at, byte);
    write_text(output, &out, count)
}

// pc, and pad >00 and the first three screen bytes as the viewer shows them.
fn show_place<W: Write>(output: &mut W, machine: &Machine) -> io::Result<()> {
    show_pc(output, machine.at.pc)?;
    for byte in machine.view(Memory::Cpu, 1) {
        show_cell(output, Part::Pad, 0, *byte)?;
    }
    for (at, byte) in (0..3).zip(machine.view(Memory::Vdp, 3)) {
        show_cell(output, Part::Vdp, at, *byte)?;
    }
    Ok(())
}

// A run from 0 to the instruction that fails, back as many steps as were made, and once more: 12, since no step is left.
fn walk<W: Write>(output: &mut W, image: [u8; 8192]) -> io::Result<()> {
    let mut machine = Machine::new(image);
    let run = machine.run(100);
    let answer = answers::number(run.refusal);
    let address = answers::address(run.refusal);
    show_answer(output, answer, run.steps, run.stores, address)?;
    show_place(output, &machine)?;
    for _ in 0..run.steps {
        machine.step_back();
        show_place(output, &machine)?;
    }
    let last = machine.step_back();
    let answer = answers::number(last.refusal);
    let address = answers::address(last.refusal);
    show_answer(output, answer, 0, last.stores, address)
}

fn main(rt: HostRuntime) -> io::Result<()> {
    let mut output = rt.stdout();
    let mut code = [0; 8192];
    code[..16].copy_from_slice(&CODE);
    walk(&mut output, code)?;
    let mut screen = [0; 8192];
    screen[..17].copy_from_slice(&SCREEN);
    screen[0x20..0x23].copy_from_slice(&OTHERS);
    walk(&mut output, screen)
}
