//! Devices over any device: a part of one, and two end to end. Both make the two checks of a call
//! themselves, so that these carry the number that was asked of them, and pass a standing fault up.

#![tactic(auto)]

pub mod join;
pub mod window;
