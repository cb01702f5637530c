//! The calls of a volume with what the console replies to each.
//!
//! `told` says what is told of each answer; `calls` makes the calls.

#![tactic(auto)]

pub mod calls;
pub mod told;
