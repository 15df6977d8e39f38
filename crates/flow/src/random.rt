// RAND: the seed at >C0 goes on, and >78 gets a random number of it.
ghost use Rattle.rules.specs.Instructions.{rand_rule};
ghost use Rattle.machine.specs.Meaning.{Does};

use machine::answers::Why;
use machine::cells;
use machine::memory::Memory;
use machine::state::Machine;
use number::random;

// The seed is stored before the limit is read.
#[tactic(auto, using(machine::proofs::Laws::steps), unfolding(rules::specs::Instructions::rand_rule))]
pub fn rand(m: &mut Machine<'_>) -> Result<(), Why>
    ensures { Does rand_rule m result }
{
    let seed = random::next_seed(m.load_word(Memory::Cpu, cells::SEED)?);
    m.store_word(Memory::Cpu, cells::SEED, seed)?;
    let limit = m.next_byte()?;
    m.store(
        Memory::Cpu,
        cells::RANDOM_NUMBER,
        random::random_of(seed, limit),
    )
}
