// Cards whose GROM can be written: what the program, which names no group, can't show.
use crate::shown;
use crate::trial::{Machine, Room, lay};
use bench::at::At;
use bench::runs::Report;
use desk::state::first;
use std::io;
use std::io::Write;

const TWO: Room = Room {
    image: 16384,
    journal: 64,
};

// With four words: for the mark and the push.
const TIGHT: Room = Room {
    image: 16384,
    journal: 4,
};

const FOUR: Room = Room {
    image: 32768,
    journal: 64,
};

const EIGHT: Room = Room {
    image: 65536,
    journal: 64,
};

// MOVE 2 bytes from >0100 to >2000, >1FFF, >3FFF and >FFFF; 1 byte to >FFFF; 3 bytes to >0101.
const TO_2000: [u8; 7] = [0x21, 0x00, 0x02, 0x20, 0x00, 0x01, 0x00];

const TO_1FFF: [u8; 7] = [0x21, 0x00, 0x02, 0x1F, 0xFF, 0x01, 0x00];

const TO_3FFF: [u8; 7] = [0x21, 0x00, 0x02, 0x3F, 0xFF, 0x01, 0x00];

const TO_FFFF: [u8; 7] = [0x21, 0x00, 0x02, 0xFF, 0xFF, 0x01, 0x00];

const ONE_TO_FFFF: [u8; 7] = [0x21, 0x00, 0x01, 0xFF, 0xFF, 0x01, 0x00];

const TO_0101: [u8; 7] = [0x21, 0x00, 0x03, 0x01, 0x01, 0x01, 0x00];

// MOVE 1 byte from >0009 to >0007, where EXIT stands: it becomes INC @>01.
const OWN_NEXT: [u8; 10] = [0x21, 0x00, 0x01, 0x00, 0x07, 0x00, 0x09, 0x0B, 0x01, 0x90];

// Each of the six once, 1 byte to >2000 and on. A length of 0, in >10, is 1; the index, in >72, is >007E; the sources of the last two are >73
// and >81, in which the push has left >80 and the low byte of pc.
const EACH: [u8; 40] = [
    0x20, 0x10, 0x20, 0x00, 0x01, 0x00, 0x21, 0x00, 0x01, 0x20, 0x01, 0x01, 0x01, 0x22, 0x10, 0x20,
    0x02, 0x01, 0x02, 0x72, 0x23, 0x00, 0x01, 0x20, 0x03, 0x01, 0x03, 0x72, 0x24, 0x10, 0x20, 0x04,
    0x73, 0x25, 0x00, 0x01, 0x20, 0x05, 0x80, 0x81,
];

// The code of a card, the groups that it may write, and how many steps it makes.
struct Card {
    what: &'static [u8],
    code: &'static [u8],
    room: Room,
    writable: u8,
    steps: u32,
}

const CARDS: [Card; 14] = [
    Card {
        what: b"two groups, >02 writable\n",
        code: &TO_2000,
        room: TWO,
        writable: 0x02,
        steps: 1,
    },
    Card {
        what: b"none writable: 24\n",
        code: &TO_2000,
        room: TWO,
        writable: 0x00,
        steps: 1,
    },
    Card {
        what: b"all but that one writable, four words: 24 before 10\n",
        code: &TO_2000,
        room: TIGHT,
        writable: 0xFD,
        steps: 1,
    },
    Card {
        what: b">02 writable, four words: 10\n",
        code: &TO_2000,
        room: TIGHT,
        writable: 0x02,
        steps: 1,
    },
    Card {
        what: b"four groups, none writable, to >FFFF: 6 before 24\n",
        code: &ONE_TO_FFFF,
        room: FOUR,
        writable: 0x00,
        steps: 1,
    },
    Card {
        what: b"two groups, all writable, four words, to >FFFF: 6 before 10\n",
        code: &ONE_TO_FFFF,
        room: TIGHT,
        writable: 0xFF,
        steps: 1,
    },
    Card {
        what: b">01 writable, to >1FFF: 24 at the second byte\n",
        code: &TO_1FFF,
        room: TWO,
        writable: 0x01,
        steps: 1,
    },
    Card {
        what: b">02 writable, to >3FFF: 6 at the second byte\n",
        code: &TO_3FFF,
        room: TWO,
        writable: 0x02,
        steps: 1,
    },
    Card {
        what: b"eight groups, >81 writable, to >FFFF and >0000\n",
        code: &TO_FFFF,
        room: EIGHT,
        writable: 0x81,
        steps: 1,
    },
    Card {
        what: b"eight groups, >80 writable: 24 at >0000\n",
        code: &TO_FFFF,
        room: EIGHT,
        writable: 0x80,
        steps: 1,
    },
    Card {
        what: b"a MOVE that reads what it wrote\n",
        code: &TO_0101,
        room: TWO,
        writable: 0x01,
        steps: 1,
    },
    Card {
        what: b"a card that rewrites its next instruction\n",
        code: &OWN_NEXT,
        room: TWO,
        writable: 0x01,
        steps: 1,
    },
    Card {
        what: b"and runs the new one\n",
        code: &OWN_NEXT,
        room: TWO,
        writable: 0x01,
        steps: 2,
    },
    Card {
        what: b"each MOVE into GROM\n",
        code: &EACH,
        room: TWO,
        writable: 0x02,
        steps: 6,
    },
];

// What a machine stands at, what it has changed of the card, and what its journal holds.
fn show<W: Write>(output: &mut W, report: Report, was: &[u8], machine: &Machine) -> io::Result<()> {
    shown::show_run(output, report, &machine.cells)?;
    shown::show_groms(output, was, machine.image)?;
    shown::show_words(output, machine.journal)
}

// The steps of a card; after a run that was not refused one step back.
fn try_card<W: Write>(output: &mut W, card: &Card) -> io::Result<()> {
    let room = card.room;
    let mut image = [0; 65536];
    let mut journal = [0; 16384];
    lay(
        &mut image,
        &[
            (0, card.code),
            (0x0100, &[0x12, 0x34]),
            (0x0180, &[0x56, 0x78]),
        ],
    );
    let was = image;
    let at = At {
        writable: card.writable,
        ..first()
    };
    let mut machine = Machine::new(&mut image[..room.image], &mut journal[..room.journal], at);
    let report = machine.run(card.steps);
    output.write_all(card.what)?;
    show(output, report, &was, &machine)?;
    if report.refusal.is_some() {
        return Ok(());
    }
    let back = machine.step_back();
    output.write_all(b"and a step back\n")?;
    show(output, back, &was, &machine)
}

pub(crate) fn all<W: Write>(output: &mut W) -> io::Result<()> {
    for card in &CARDS {
        try_card(output, card)?;
    }
    Ok(())
}
