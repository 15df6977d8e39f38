// Operands: the cell that one names, what is read there, and how a result is stored; the subroutine stack and the condition bit.
#![tactic(auto)]

pub mod decode;
pub mod places;
pub mod screen;
pub mod stacks;
pub mod status;
pub mod targets;
pub mod values;
