// Machines that have only their subroutine stack set.
ghost use Rattle.std.specs.Prelude.{◌≤◌};

use bench::at::At;
use bench::runs::Report;
use desk::state::Cells;

// How many bytes an image has, and how many words a journal.
#[derive(Clone, Copy)]
pub(crate) struct Room {
    pub image: usize,
    pub journal: usize,
    ghost image_fits: { image ≤ 65536 },
    ghost journal_fits: { journal ≤ 16384 },
}

// The image and the journal are lent, since their sizes are what is tried.
#[derive(Drop)]
pub(crate) struct Machine<'a> {
    pub image: &'a mut [u8],
    pub cells: Cells,
    pub journal: &'a mut [u32],
    pub at: At,
}

// The cells before the first step.
pub(crate) fn fresh() -> Cells {
    let mut pad = [0; 256];
    pad[0x73] = 0x7E;
    Cells {
        pad,
        vram: [0; 16384],
        regs: [0; 8],
    }
}

impl<'a> Machine<'a> {
    pub fn new(image: &'a mut [u8], journal: &'a mut [u32], at: At) -> Self {
        Machine {
            image,
            cells: fresh(),
            journal,
            at,
        }
    }

    // Up to so many steps.
    pub fn run(&mut self, n: u32) -> Report {
        let report = bench::runs::run(
            self.image,
            &mut self.cells.pad,
            &mut self.cells.vram,
            &mut self.cells.regs,
            self.journal,
            self.at,
            n,
        );
        self.at = report.at;
        report
    }

    // A step back, as a run of no steps.
    pub fn step_back(&mut self) -> Report {
        let reply = bench::walk::step_back(
            self.image,
            &mut self.cells.pad,
            &mut self.cells.vram,
            &mut self.cells.regs,
            self.journal,
            self.at,
        );
        self.at = reply.at;
        Report {
            refusal: reply.refusal,
            steps: 0,
            stores: reply.stores,
            at: reply.at,
        }
    }
}

// Pieces of an image, each laid from its address on, as far as the image goes.
pub(crate) fn lay(image: &mut [u8], pieces: &[(usize, &[u8])]) {
    for (at, bytes) in pieces {
        for (cell, byte) in image.iter_mut().skip(*at).zip(*bytes) {
            *cell = *byte;
        }
    }
}
