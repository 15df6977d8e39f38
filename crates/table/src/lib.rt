// Tables of cases: a case a line, with what is set before a run, the run, and all that it must leave.
#![tactic(auto)]

mod cases;
mod fields;
pub mod whole;
