// The machine that a step is made on: the lent memories, the journal, and the few numbers beside them; and what every instruction does to it.
// A function that refuses says why; what it had stored stands in the journal, to be put back.
#![tactic(auto)]

pub mod answers;
pub mod cells;
pub mod grom;
pub mod journal;
pub mod memory;
pub mod notes;
pub mod state;
