//! The parts of a line of text: words, numbers in decimal, and bytes in hexadecimal.

#![tactic(auto)]

pub mod hexadecimal;
pub mod numbers;
pub mod words;
