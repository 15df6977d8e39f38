// A block of a list: its bytes and the count, or a new address.
ghost use Rattle.rules.specs.Sound;
ghost use Rattle.rules.specs.Sound.{send_block};
ghost use Rattle.machine.specs.Meaning.{valued, Does, Unwritten};
ghost use Rattle.sound.specs.Meaning.{Plays, room_left, due_of};

use crate::list;
use crate::list::Output;
use machine::answers::Why;
use machine::state::Machine;
use number::{addresses, words};

// Sizes that are no block of bytes: a new address, in the same source and in the other.
const SAME: u8 = 0;

const OTHER: u8 = 255;

// What is due after a block: the address and the source of the one after it, and how many ticks on that is.
#[derive(Clone, Copy)]
pub struct Due {
    pub list: u16,
    pub count: u8,
    pub source: bool,
}

// n bytes sent, and the count.
#[tactic(auto, using(crate::proofs::Laws::playing), unfolding(rules::specs::Sound::send_block))]
fn send_block(
    m: &mut Machine<'_>,
    output: &mut Output<'_>,
    source: bool,
    a: u16,
    n: u8,
) -> Result<Due, Why>
    ensures does { Plays (send_block (room_left output) source a n) m output (valued due_of result) }
    ensures words { Unwritten m }
{
    let width = n as u16;
    list::send_bytes(m, output, source, addresses::plus(a, 1), n)?;
    let count = list::list_byte(m, source, addresses::plus(a, width + 1))?;
    Ok(Due {
        list: addresses::plus(a, width + 2),
        count,
        source,
    })
}

// A new address, in one source or the other.
#[tactic(auto, using(machine::proofs::Laws::steps), unfolding(rules::specs::Sound::leap))]
fn leap(m: &mut Machine<'_>, source: bool, a: u16, to: bool) -> Result<Due, Why>
    ensures does { Does (Sound.leap source a to) m (valued due_of result) }
    ensures words { Unwritten m }
{
    let high = list::list_byte(m, source, addresses::plus(a, 1))?;
    let low = list::list_byte(m, source, addresses::plus(a, 2))?;
    Ok(Due {
        list: words::word_of(high, low),
        count: 1,
        source: to,
    })
}

// By its size.
#[tactic(auto, using(crate::proofs::Laws::playing), unfolding(rules::specs::Sound::block))]
pub fn block(
    m: &mut Machine<'_>,
    output: &mut Output<'_>,
    source: bool,
    a: u16,
    n: u8,
) -> Result<Due, Why>
    ensures does { Plays (Sound.block (room_left output) source a n) m output (valued due_of result) }
    ensures words { Unwritten m }
{
    if n == SAME {
        return leap(m, source, a, source);
    }
    if n == OTHER {
        return leap(m, source, a, !source);
    }
    send_block(m, output, source, a, n)
}
