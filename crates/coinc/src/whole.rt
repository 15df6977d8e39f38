// A whole COINC.
ghost use Rattle.std.specs.Prelude.{◌<◌, IfOk};
ghost use Rattle.rules.specs.Coincidence;
ghost use Rattle.rules.specs.Coincidence.{look_up, coinc_rule};
ghost use Rattle.machine.specs.Meaning.{Does};

use crate::table;
use machine::answers::{Why, need};
use machine::state::Machine;
use operand::{stacks, status, values};

// At most 7: a shift by it is sound.
#[tactic(auto, using(machine::proofs::Laws::steps), unfolding(rules::specs::Coincidence::granularity))]
fn granularity(m: &mut Machine<'_>) -> Result<u16, Why>
    ensures bound { IfOk result (λ g. g < 8) }
    ensures does { Does Coincidence.granularity m result }
{
    let g = m.next_byte()?;
    need(g <= 7, Why::TooCoarse)?;
    Ok(g as u16)
}

// pc stands on the stack while the table is read and the condition stored.
#[tactic(auto, using(machine::proofs::Laws::steps), unfolding(rules::specs::Coincidence::look_up))]
fn look_up(m: &mut Machine<'_>, t: u16, g: u16, a: u16, b: u16) -> Result<(), Why>
    requires { g < 8 }
    ensures { Does (look_up t g a b) m result }
{
    stacks::push_pc(m)?;
    let met = table::in_table(m, t, g, a, b)?;
    status::set_condition(m, met)?;
    stacks::pop_pc(m)
}

// The destination is read before the source.
#[tactic(auto, using(machine::proofs::Laws::steps), unfolding(rules::specs::Coincidence::coinc_rule))]
pub fn coinc(m: &mut Machine<'_>) -> Result<(), Why>
    ensures { Does coinc_rule m result }
{
    let a = values::operand_value(m, true)?;
    let b = values::operand_value(m, true)?;
    let g = granularity(m)?;
    let t = m.next_word()?;
    look_up(m, t, g, a, b)
}
