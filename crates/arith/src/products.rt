// MUL and DIV: the destination is a number of two widths, its high half first.
ghost use Rattle.std.specs.Prelude.{◌≡◌, ◌+◌, ◌<◌, ◌≤◌};
ghost use Rattle.rules.specs.Operands.{byte_count, past};
ghost use Rattle.rules.specs.Arithmetic.{half, span};
ghost use Rattle.rules.specs.Instructions;
ghost use Rattle.rules.specs.Instructions.{halves, mul_rule, div_status, div_overflow, div_rule};
ghost use Rattle.machine.specs.Meaning.{Does};
ghost use Rattle.operand.specs.Meaning.{cell_of};
ghost use Rattle.arith.specs.Meaning.{div_by};

use machine::answers::Why;
use machine::cells;
use machine::memory::Memory;
use machine::state::Machine;
use number::products;
use number::products::Halves;
use operand::places::Place;
use operand::targets::read_target;
use operand::values;

// The place of the low half.
fn low_half(wide: bool, place: Place) -> Place
    requires { (cell_of place).at + byte_count wide ≤ 16384 }
    ensures { cell_of result ≡ past (byte_count wide) (cell_of place) }
{
    place.beyond(values::byte_count(wide) as u16)
}

// Two results, the second in the low half's place.
#[tactic(auto, using(machine::proofs::Laws::steps), unfolding(rules::specs::Instructions::halves))]
fn store_halves(m: &mut Machine<'_>, wide: bool, place: Place, h: Halves) -> Result<(), Why>
    requires { (cell_of place).at + byte_count wide ≤ 16384 }
    ensures { Does (halves wide (cell_of place) h.high h.low) m result }
{
    values::result(m, wide, place, h.high)?;
    values::result(m, wide, low_half(wide, place), h.low)
}

#[tactic(auto, using(machine::proofs::Laws::steps), unfolding(rules::specs::Instructions::mul_rule, operand::specs::Meaning::read_target))]
pub fn mul(m: &mut Machine<'_>, imm: bool, wide: bool) -> Result<(), Why>
    ensures { Does (mul_rule imm wide) m result }
{
    let a = read_target(m, wide)?;
    let b = values::source(m, imm, wide)?;
    store_halves(m, wide, a.place, products::times(wide, a.value, b))
}

// ---- DIV

const OVERFLOW: u8 = 0x08;

// What DIV stores as status before it divides.
fn div_status(wide: bool) -> u8
    ensures { (result ≡ div_status wide) × (result ≤ 1) }
{
    if wide { 1 } else { 0 }
}

// The status again, with the overflow bit.
#[tactic(auto, using(machine::proofs::Laws::steps), unfolding(rules::specs::Instructions::div_overflow))]
fn div_overflow(m: &mut Machine<'_>, wide: bool) -> Result<(), Why>
    ensures { Does (div_overflow wide) m result }
{
    m.store(Memory::Cpu, cells::STATUS, div_status(wide) + OVERFLOW)
}

// The quotient must be of one width: the high half must be below the divisor.
#[tactic(auto, using(machine::proofs::Laws::choosing), unfolding(rules::specs::Instructions::divided, rules::specs::Instructions::div_results))]
fn divided(
    m: &mut Machine<'_>,
    wide: bool,
    place: Place,
    upper: u16,
    lower: u16,
    b: u16,
) -> Result<(), Why>
    requires { ((cell_of place).at + byte_count wide ≤ 16384) × (b < span (half wide)) × (lower < span (half wide)) }
    ensures { Does (Instructions.divided wide (cell_of place) upper lower b) m result }
{
    if b <= upper {
        return div_overflow(m, wide);
    }
    store_halves(m, wide, place, products::divide(wide, upper, lower, b))
}

// DIV once its operands are read: the status is stored before the low half is read.
#[tactic(auto, using(machine::proofs::Laws::steps), unfolding(crate::specs::Meaning::div_by))]
fn div_by(m: &mut Machine<'_>, wide: bool, place: Place, upper: u16, b: u16) -> Result<(), Why>
    requires { ((cell_of place).at + byte_count wide ≤ 16384) × (b < span (half wide)) }
    ensures { Does (div_by wide (cell_of place) upper b) m result }
{
    m.store(Memory::Cpu, cells::STATUS, div_status(wide))?;
    let lower = values::standing(m, wide, low_half(wide, place))?;
    divided(m, wide, place, upper, lower, b)
}

#[tactic(auto, using(machine::proofs::Laws::steps), unfolding(rules::specs::Instructions::div_rule, operand::specs::Meaning::read_target))]
pub fn div(m: &mut Machine<'_>, imm: bool, wide: bool) -> Result<(), Why>
    ensures { Does (div_rule imm wide) m result }
{
    let upper = read_target(m, wide)?;
    let b = values::source(m, imm, wide)?;
    div_by(m, wide, upper.place, upper.value, b)
}
