// The four bit tests: each sets the condition bit of the status byte.
ghost use Rattle.std.specs.Prelude.{◌≡◌};
ghost use Rattle.rules.specs.Arithmetic;
ghost use Rattle.rules.specs.Instructions.{test_rule};
ghost use Rattle.machine.specs.Meaning.{Does};
ghost use Rattle.flow.specs.Meaning.{test_of};

use machine::answers::Why;
use machine::cells;
use machine::memory::Memory;
use machine::state::Machine;

// H, GT, CARRY, OVF: by the status bit that they test.
#[derive(Clone, Copy)]
pub enum Test {
    High,
    Greater,
    Carry,
    Overflow,
}

// The bit that a test asks for.
#[tactic(auto, unfolding(rules::specs::Arithmetic::tested))]
fn tested(t: Test, s: u8) -> bool
    ensures { result ≡ Arithmetic.tested (test_of t) s }
{
    match t {
        Test::High => number::bits::bit(7, s),
        Test::Greater => number::bits::bit(6, s),
        Test::Carry => number::bits::bit(4, s),
        Test::Overflow => number::bits::bit(3, s),
    }
}

#[tactic(auto, using(machine::proofs::Laws::steps), unfolding(rules::specs::Instructions::test_rule))]
pub fn test_status(m: &mut Machine<'_>, t: Test) -> Result<(), Why>
    ensures { Does (test_rule (test_of t)) m result }
{
    let s = m.load(Memory::Cpu, cells::STATUS)?;
    m.store(
        Memory::Cpu,
        cells::STATUS,
        number::sums::with_condition(tested(t, s), s),
    )
}
