//! Passes over a sector: the steps that the wide modes share, each a pass over the buffer in place.
//!
//! A sector is its whole blocks and a tail of fewer bytes than a block has (`specs/Sector.antt`). `blocks` has the passes
//! over the whole blocks, which leave the tail as it is, and `tails` what is made of a tail.

#![tactic(auto)]

pub mod blocks;
pub mod tails;
