// Bytes and words: pure functions, each by its rule.
#![tactic(auto)]

pub mod addresses;
pub mod bits;
pub mod coincidence;
pub mod cursor;
pub mod products;
pub mod random;
pub mod shifts;
pub mod sums;
pub mod words;
