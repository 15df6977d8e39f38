// Who wrote a cell: the newest kept step that stored to it, from the journal alone.
#![tactic(auto)]

pub mod call;
pub mod trail;
