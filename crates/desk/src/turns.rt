// An input obeyed, from one text that it prints to the next.
ghost use Rattle.std.specs.Prelude.{◌≡◌};
ghost use Rattle.desk.specs.Meaning.{foremost, Numbered, Turns};

use crate::obey::BadLine;
use crate::show::ROOM;
use crate::state::Machine;
use crate::{input, obey};

// A place in a text: where the next line begins, and the number of the line before it.
#[derive(Clone, Copy)]
pub struct Place {
    pub from: usize,
    pub number: u64,
}

impl Place {
    // Before the first line.
    pub fn first() -> Self
        ensures { result ≡ foremost }
    {
        Place { from: 0, number: 0 }
    }
}

// Lines obeyed from a place on, up to and with the first that prints something: where no byte is printed, no whole line is left.
pub fn next_text(
    text: &[u8],
    ended: bool,
    place: &mut Place,
    machine: &mut Machine,
    out: &mut [u8; ROOM],
) -> Result<usize, BadLine>
    requires { Numbered text.now place.old }
    ensures { Turns ended text place machine out result }
{
    while let Some(line) = input::line_at(text, place.from, ended) {
        let said = &text[place.from..line.end];
        place.from = line.next;
        place.number += 1;
        let count = obey::obey(said, place.number, machine, out)?;
        if count != 0 {
            return Ok(count);
        }
    }
    Ok(0)
}
