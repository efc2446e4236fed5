//! What the programs read and write as text: lines and their words, bytes in hexadecimal, operations in words, and what objects' answers mean.
//!
//! Hexadecimal text is read and written exactly, and an operation in words is exactly the sixteen bytes that an object
//! is given. The wording of answers and complaints is tested, not proved.
#![tactic(auto)]

pub mod deed;
pub mod hex;
pub mod line;
pub mod meaning;
pub mod trouble;
pub mod words;
