// COINC: whether two objects meet, by a table of bits in the image.
#![tactic(auto)]

pub mod table;
pub mod whole;
