// Tests, branches, PUSH, FETCH, CASE and RAND: each a row of calls, as its rule is a row of actions.
#![tactic(auto)]

pub mod branches;
pub mod operands;
pub mod random;
pub mod status;
