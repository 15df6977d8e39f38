// The instruction of a task: one match, since a table of functions would hand out pointers and be no plainer.
ghost use Rattle.rules.specs.Tasks.{rule_of};
ghost use Rattle.machine.specs.Meaning.{Does};
ghost use Rattle.opcode.specs.Meaning.{task_of};

use crate::class::Task;
use arith::{operations, products};
use block::{screen, whole};
use flow::{branches, operands, random, status};
use machine::answers::Why;
use machine::state::Machine;

#[tactic(auto, using(machine::proofs::Laws::steps), unfolding(rules::specs::Tasks::rule_of))]
pub fn perform(m: &mut Machine<'_>, task: Task) -> Result<(), Why>
    ensures { Does (rule_of (task_of task)) m result }
{
    match task {
        Task::Rtn => branches::rtn(m),
        Task::Rtnc => branches::rtnc(m),
        Task::Rand => random::rand(m),
        Task::Back => screen::back(m),
        Task::Long => branches::long(m),
        Task::Call => branches::call(m),
        Task::All => screen::all(m),
        Task::Fmt => format::codes::format(m),
        Task::Test(t) => status::test_status(m, t),
        Task::Move(bits) => whole::move_block(m, bits),
        Task::Branch(set, upper) => branches::branch(m, set, upper),
        Task::One(op, wide) => operations::one(m, op, wide),
        Task::Fetch(wide) => operands::fetch(m, wide),
        Task::Case(wide) => operands::case(m, wide),
        Task::Push(wide) => operands::push(m, wide),
        Task::Two(op, imm, wide) => operations::two(m, op, imm, wide),
        Task::Mul(imm, wide) => products::mul(m, imm, wide),
        Task::Div(imm, wide) => products::div(m, imm, wide),
        Task::Ex(wide) => operations::ex(m, wide),
        Task::Coinc => coinc::whole::coinc(m),
    }
}
