// Intel HEX: a text of records read into a lent image, and an image written out.
#![tactic(auto)]

pub mod digits;
pub mod dump;
pub mod flags;
pub mod line;
pub mod reader;
pub mod rows;
