// FMT: format strings. A function for each kind of code, one that picks among them, and a loop of at most 16,384 codes.
#![tactic(auto)]

pub mod codes;
pub mod cursor;
pub mod text;
