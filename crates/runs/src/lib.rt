//! The law of volumes over every list of calls, and a call that performs one.
//!
//! `law` states the law for every device and mode; `script` has a call with the place for its answer; `perform` makes the
//! calls of a script on a volume, under that law. What a history of calls says is `specs/History.antt`, and the law itself
//! `specs/Law.antt`.

#![tactic(auto)]

pub mod law;
pub mod perform;
pub mod script;
