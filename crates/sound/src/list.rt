// The bytes of a list: read from GROM or from VDP RAM, and sent to a lent output.
ghost use Rattle.std.specs.Prelude.{◌≡◌, ◌+◌, IfOk};
ghost use Rattle.rules.specs.Sound.{list_byte, send_next, send_bytes};
ghost use Rattle.machine.specs.Meaning.{Does, Unwritten};
ghost use Rattle.sound.specs.Meaning.{Sends, Plays, room_left};

use machine::answers::Why;
use machine::memory::Memory;
use machine::state::Machine;
use number::addresses;

// An output, and how many of its bytes are in use.
#[derive(Drop)]
pub struct Output<'a> {
    pub bytes: &'a mut [u8],
    pub sent: usize,
}

impl Output<'_> {
    // A byte, where there is room.
    fn send(&mut self, b: u8) -> Result<(), Why>
        ensures { Sends b self result }
    {
        if self.bytes.len() <= self.sent {
            return Err(Why::OutputFull);
        }
        self.bytes[self.sent] = b;
        self.sent += 1;
        Ok(())
    }
}

// A byte of a list.
#[tactic(auto, using(machine::proofs::Laws::choosing), unfolding(rules::specs::Sound::list_byte))]
pub fn list_byte(m: &mut Machine<'_>, source: bool, a: u16) -> Result<u8, Why>
    ensures does { Does (list_byte source a) m result }
    ensures words { Unwritten m }
{
    let memory = if source { Memory::Vdp } else { Memory::Grom };
    m.load(memory, a as usize)
}

// A byte of a list into it.
#[tactic(auto, using(crate::proofs::Laws::playing), unfolding(rules::specs::Sound::send_next))]
fn send_next(m: &mut Machine<'_>, output: &mut Output<'_>, source: bool, a: u16) -> Result<(), Why>
    ensures one { IfOk result (λ _. output.new.sent ≡ output.old.sent + 1) }
    ensures does { Plays (send_next (room_left output) source a) m output result }
    ensures words { Unwritten m }
{
    let b = list_byte(m, source, a)?;
    output.send(b)
}

// n of them from an address on.
#[tactic(auto, using(crate::proofs::Laws::playing, machine::proofs::Laws::looping), unfolding(rules::specs::Sound::send_bytes))]
pub fn send_bytes(
    m: &mut Machine<'_>,
    output: &mut Output<'_>,
    source: bool,
    a: u16,
    n: u8,
) -> Result<(), Why>
    ensures does { Plays (send_bytes (room_left output) source a n) m output result }
    ensures words { Unwritten m }
{
    let mut at = a;
    for _ in 0..n {
        send_next(m, output, source, at)?;
        at = addresses::plus(at, 1);
    }
    Ok(())
}
