//! The language of the console: lines read as commands, and answers written as text.
//!
//! `command` has what a line may ask for and `parse` reads it; `answer` has what is answered and its text. `names` are the
//! fixed words of the language. Nothing here knows what a volume is.

#![tactic(auto)]

pub mod answer;
pub mod command;
pub mod names;
pub mod parse;
