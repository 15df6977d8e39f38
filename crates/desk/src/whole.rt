// An input read, obeyed, and what it prints written.
ghost use Rattle.std.specs.Prelude.{◌≡◌, [], true, OnOk, IfErr};
ghost use Rattle.desk.specs.Desk.{start};
ghost use Rattle.desk.specs.declared.whole.Halt.TheVariants.{Io};
ghost use Rattle.desk.specs.Meaning.{Numbered, state_of, Speaks, Halts};

use crate::input::PIECE;
use crate::pending::Pending;
use crate::show::ROOM;
use crate::state::Machine;
use crate::turns::Place;
use crate::{show, turns};
use std::io;
use std::io::{Read, Write};

// Why no more is obeyed: a line says nothing, or more can't be read or written.
#[derive(Drop)]
enum Halt {
    BadLine,
    Io(io::Error),
}

impl From<io::Error> for Halt {
    ghost from_gives = { λ e h. h ≡ Io e };

    fn from(error: io::Error) -> Self {
        Halt::Io(error)
    }
}

// The lines of a text obeyed, as far as it has whole ones, and what they print written.
fn obey_text<W: Write>(
    output: &mut W,
    text: &[u8],
    ended: bool,
    place: &mut Place,
    machine: &mut Machine,
    out: &mut [u8; ROOM],
) -> Result<(), Halt>
    requires { Numbered text.now place.old }
    ensures ok { OnOk result (Speaks ended text place machine true) }
    ensures err { IfErr result (Halts ended text place machine) }
{
    loop {
        match turns::next_text(text, ended, place, machine, out) {
            Ok(0) => return Ok(()),
            Ok(count) => show::write_text(output, out, count)?,
            Err(bad) => {
                show::write_text(output, out, bad.count)?;
                return Err(Halt::BadLine);
            }
        }
    }
}

// A proved loop has to end, and nothing says that an input does: after so many lines no more is read, and those of one piece can still be numbered.
const LAST: u64 = u64::MAX - 65547;

// An input, piece by piece.
fn obey_input<R: Read, W: Write>(
    input: &mut R,
    output: &mut W,
    pending: &mut Pending<PIECE>,
    machine: &mut Machine,
    out: &mut [u8; ROOM],
) -> Result<(), Halt>
    requires { (pending.old ≡ []) × (state_of machine.old ≡ start) }
{
    let mut place = Place::first();
    while place.number < LAST {
        let ended = pending.refill(input)? == 0;
        place.from = 0;
        obey_text(output, pending.bytes(), ended, &mut place, machine, out)?;
        pending.pass(place.from);
        if ended {
            return Ok(());
        }
    }
    Ok(())
}

// The machine on the desk, all 0.
// The error is that of a read or a write that failed: nothing is read or printed after it.
pub fn obey_all<R: Read, W: Write>(input: &mut R, output: &mut W) -> io::Result<()> {
    let mut pending = Pending::new();
    let mut machine = Machine::new();
    let mut out = [0u8; ROOM];
    match obey_input(input, output, &mut pending, &mut machine, &mut out) {
        Ok(()) | Err(Halt::BadLine) => Ok(()),
        Err(Halt::Io(error)) => Err(error),
    }
}
