// The machine on the desk: lines found in what was read, each obeyed as it comes, and what a run prints.
#![tactic(auto)]

pub mod input;
pub mod obey;
pub mod pending;
pub mod show;
pub mod state;
pub mod turns;
pub mod whole;
