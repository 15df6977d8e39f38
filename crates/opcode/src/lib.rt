// What an opcode stands for, and the doing of it.
#![tactic(auto)]

pub mod class;
pub mod task;
