// What the rig's operator runs: a dump shown as lines for the bench, and the dump of such lines.
#![tactic(auto)]

pub mod gather;
pub mod show;
pub mod whole;
