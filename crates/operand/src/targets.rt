// An operand that is read and then stored to.
ghost use Rattle.std.specs.Prelude.{◌+◌, ◌<◌, ◌≤◌, IfOk};
ghost use Rattle.rules.specs.Arithmetic.{half, span};
ghost use Rattle.rules.specs.Operands.{byte_count};
ghost use Rattle.machine.specs.Meaning.{valued, Does};
ghost use Rattle.operand.specs.Meaning.{cell_of, target_of, read_target};

use crate::places::Place;
use crate::{decode, values};
use machine::answers::Why;
use machine::state::Machine;

// Its place, and the value that was read there.
#[derive(Clone, Copy)]
pub struct Target {
    pub place: Place,
    pub value: u16,
}

#[tactic(auto, using(machine::proofs::Laws::steps), unfolding(crate::specs::Meaning::read_target))]
pub fn read_target(m: &mut Machine<'_>, wide: bool) -> Result<Target, Why>
    ensures reach { IfOk result (λ t. (cell_of t.place).at + byte_count wide ≤ 16384) }
    ensures bound { IfOk result (λ t. t.value < span (half wide)) }
    ensures does { Does (read_target wide) m (valued target_of result) }
{
    let place = decode::operand(m, values::byte_count(wide))?;
    let value = values::value(m, wide, place)?;
    Ok(Target { place, value })
}
