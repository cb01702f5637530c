//! Sector devices: what a device is, and what every layer over one needs.
//!
//! A device is a row of sectors of one size. Each sector has its bytes, or a standing fault that
//! refuses every read and write of it. `device` has the trait; `fault` what a refused call carries;
//! `call` the two checks that each device makes first, and how a layer passes an answer up; `rules`
//! the theorem that what calls are defined to do is what a device promises.

#![tactic(auto)]

pub mod call;
pub mod device;
pub mod fault;
pub mod rules;
