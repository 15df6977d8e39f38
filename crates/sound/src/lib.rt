// Sound lists: how one is started, and what a tick does past its mark. 02, item 10.
#![tactic(auto)]

pub mod block;
pub mod list;
pub mod start;
pub mod tick;
