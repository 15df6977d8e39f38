// The journal and the book beside it: the one place that knows where among the caller's words a journal word stands.
#![tactic(auto)]

pub mod book;
