// Steps back over a record that was never made, in an image of two groups of which the second may be written, and a third, which there is not.
use crate::shown;
use crate::trial::Machine;
use bench::at::At;
use desk::state::first;
use std::io;
use std::io::Write;

// A mark that carries pc >0042.
const MARK: u32 = 0x6000_0042;

// What it is, the words of the journal, and how many of them are used.
const CASES: [(&[u8], [u32; 2], usize); 18] = [
    (b"no step to take back\n", [0, 0], 0),
    (b"a mark, and pad >00 had >55\n", [MARK, 0x0000_0055], 2),
    (b"a mark, and VDP >3FFF had >55\n", [MARK, 0x203F_FF55], 2),
    (b"a mark, and register 7 had >55\n", [MARK, 0x4000_0755], 2),
    (b"a mark, and GROM >2000 had >55\n", [MARK, 0x8020_0055], 2),
    (b"a mark, and GROM >3FFF had >55\n", [MARK, 0x803F_FF55], 2),
    (b"no mark below\n", [0x0000_0055, 0x0000_0155], 2),
    (
        b"a mark with a surplus bit\n",
        [0x6002_0042, 0x0000_0055],
        2,
    ),
    (b"pad >E0\n", [MARK, 0x0000_E055], 2),
    (b"VDP >4000\n", [MARK, 0x2040_0055], 2),
    (b"register 8\n", [MARK, 0x4000_0855], 2),
    (
        b"GROM >1FFF: group 0 is not writable\n",
        [MARK, 0x801F_FF55],
        2,
    ),
    (b"GROM >4000: beyond the image\n", [MARK, 0x8040_0055], 2),
    (b"GROM >10000: no address\n", [MARK, 0x8100_0055], 2),
    (b"kind 5\n", [MARK, 0xA000_0055], 2),
    (b"kind 6\n", [MARK, 0xC000_0055], 2),
    (b"kind 7\n", [MARK, 0xE000_0055], 2),
    (b"more used than there are\n", [MARK, 0x0000_0055], 3),
];

// Over an image of zeros.
fn try_back<W: Write>(
    output: &mut W,
    image: &mut [u8],
    what: &[u8],
    words: [u32; 2],
    used: usize,
) -> io::Result<()> {
    let mut journal = words;
    let at = At {
        pc: 0x1234,
        used,
        writable: 0x06,
        ..first()
    };
    let mut machine = Machine::new(image, &mut journal, at);
    let report = machine.step_back();
    output.write_all(what)?;
    shown::show_run(output, report, &machine.cells)?;
    shown::show_groms(output, &[0; 16384], machine.image)
}

pub(crate) fn all<W: Write>(output: &mut W) -> io::Result<()> {
    for (what, words, used) in CASES {
        try_back(output, &mut [0; 16384], what, words, used)?;
    }
    let short = b"an image that is no whole group\n";
    try_back(output, &mut [0; 16383], short, [MARK, 0x0000_0055], 2)
}
