// The program's lines: what a line of its input says, and the lines that it prints.
#![tactic(auto)]

pub mod digits;
pub mod parts;
pub mod print;
pub mod read;
