// The public calls: step, run, step_back, tick and view. Each part is a parameter of its own: a caller in C lends them so.
#![tactic(auto)]

pub mod answers;
pub mod at;
pub mod fits;
pub mod runs;
pub mod ticks;
pub mod viewer;
pub mod walk;
