// One step, in images of one group and of eight, in one that is no whole group, and with a journal that has no room.
use crate::shown;
use crate::trial::{Machine, lay};
use bench::at::At;
use desk::state::first;
use std::io;
use std::io::Write;

// MOVE from GROM 0 to VDP 0: >8000 bytes, and >8001, which moves one.
const MOVE_8000: [u8; 7] = [0x31, 0x80, 0x00, 0xA0, 0x00, 0x00, 0x00];

const MOVE_8001: [u8; 7] = [0x31, 0x80, 0x01, 0xA0, 0x00, 0x00, 0x00];

// COINC by a table at >FFFE, which goes on at >0000.
const COINC_FFFE: [u8; 6] = [0xED, 0x00, 0x02, 0x00, 0xFF, 0xFE];

// What is laid into the image, from which address on, and how many words of the journal are used.
struct Case {
    what: &'static [u8],
    pieces: &'static [(usize, &'static [u8])],
    used: usize,
}

const ONE_GROUP: [Case; 2] = [
    Case {
        what: b"one group, >8000 bytes: beyond the image\n",
        pieces: &[(0, &MOVE_8000)],
        used: 0,
    },
    Case {
        what: b"one group, >8001 bytes: one is moved\n",
        pieces: &[(0, &MOVE_8001)],
        used: 0,
    },
];

const EIGHT_GROUPS: Case = Case {
    what: b"eight groups, a table that goes on at >0000\n",
    // The row's limit is >FF, and its size the opcode: the bit is number >ED, in the byte at >001F.
    pieces: &[(0, &COINC_FFFE), (0x1F, &[0x04]), (0xFFFE, &[0xFF])],
    used: 0,
};

const NO_WHOLE_GROUP: Case = Case {
    what: b"an image that is no whole group\n",
    pieces: &[],
    used: 0,
};

// In the image that the cases of one group leave.
const ONE_WORD: [Case; 2] = [
    Case {
        what: b"used exceeds the journal\n",
        pieces: &[],
        used: 2,
    },
    Case {
        what: b"a journal of one word\n",
        pieces: &[],
        used: 0,
    },
];

fn try_step<W: Write>(
    output: &mut W,
    case: &Case,
    image: &mut [u8],
    journal: &mut [u32],
) -> io::Result<()> {
    lay(image, case.pieces);
    let at = At {
        used: case.used,
        ..first()
    };
    let mut machine = Machine::new(image, journal, at);
    let report = machine.run(1);
    output.write_all(case.what)?;
    shown::show_run(output, report, &machine.cells)
}

// One journal for the first four: a step finds in it, past the words that are used, what the steps before it wrote.
pub(crate) fn all<W: Write>(output: &mut W) -> io::Result<()> {
    let mut image = [0; 8192];
    let mut journal = [0; 16384];
    let mut word = [0; 1];
    for case in &ONE_GROUP {
        try_step(output, case, &mut image, &mut journal)?;
    }
    try_step(output, &EIGHT_GROUPS, &mut [0; 65536], &mut journal)?;
    try_step(output, &NO_WHOLE_GROUP, &mut [0; 8191], &mut journal)?;
    for case in &ONE_WORD {
        try_step(output, case, &mut image, &mut word)?;
    }
    Ok(())
}
