//! A list of sectors that are to fail: each sector whose number is entered has a standing fault.

#![tactic(auto)]

pub mod list;
pub mod refusal;
mod table;
