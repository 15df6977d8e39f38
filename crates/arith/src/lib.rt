// The instructions of one and two operands, byte and word: the effect as a function of numbers, and the reads and stores around it.
#![tactic(auto)]

pub mod effects;
pub mod operations;
pub mod products;
