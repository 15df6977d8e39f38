// How a list is started: >F4 to >F7.
ghost use Rattle.std.specs.Prelude.{◌≡◌, ltb};
ghost use Rattle.rules.specs.Machine.{◌also◌};
ghost use Rattle.rules.specs.Sound.{in_pad, start_rule};
ghost use Rattle.machine.specs.Meaning.{Does};
ghost use Rattle.operand.specs.Meaning.{cell_of};

use machine::answers::{Why, need};
use machine::cells;
use machine::memory::Memory;
use machine::state::Machine;
use operand::places::Place;
use operand::targets::read_target;
use operand::values;

// A function that starts a list, with its address in the pad.
#[tactic(auto, using(machine::proofs::Laws::testing))]
fn starts(place: Place, f: u16) -> bool
    ensures { result ≡ (in_pad (cell_of place) also ltb f 2) }
{
    matches!(place, Place::Cpu(_)) && f < 2
}

// The source flag. The list's address is read whole before it is stored.
#[tactic(auto, using(machine::proofs::Laws::steps), unfolding(rules::specs::Sound::start_rule, operand::specs::Meaning::read_target))]
pub fn start(m: &mut Machine<'_>, imm: bool, wide: bool) -> Result<bool, Why>
    ensures { Does (start_rule imm wide) m result }
{
    let place = read_target(m, wide)?.place;
    let f = values::source(m, imm, wide)?;
    need(starts(place, f), Why::NeedsHost)?;
    let a = m.load_word(Memory::Cpu, place.at() as usize)?;
    m.store_word(Memory::Cpu, cells::LIST, a)?;
    m.store(Memory::Cpu, cells::COUNT, 1)?;
    Ok(f == 1)
}
