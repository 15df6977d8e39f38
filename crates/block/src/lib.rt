// MOVE: its two ends, one byte from one to the other, and all of them. BACK and ALL. What surely goes to VDP RAM goes at once.
#![tactic(auto)]

pub mod bytes;
mod copies;
pub mod ends;
pub mod screen;
pub mod whole;
