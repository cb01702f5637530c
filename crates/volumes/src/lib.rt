//! Volumes: a sector device whose sectors are enciphered below it, and whose key is changed while it is in use.
//!
//! A volume lies on any device and has two modes of one type, the current and the next. `phase` says what it is doing;
//! `fault` why a call is refused; `volume` has the struct and the calls open, begin, step and report; `serve` one sector under
//! one mode; `rekey` what a step does to one sector; `sectors` the volume as a device.

#![tactic(auto)]

pub mod fault;
pub mod phase;
mod rekey;
pub mod sectors;
mod serve;
pub mod volume;
