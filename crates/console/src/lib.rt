//! The console: a session on a volume, a command at a time.
//!
//! `terminal` is where lines come from and answers go; `asking` reads the next command from one; `served` has what answers
//! commands: nothing yet, an image with its fault list, or a volume; and `session` has one after the other serve them, until
//! there are no more. Lines are read and answers written by `commands`, and the calls made by `replies`.

#![tactic(auto)]

mod asking;
mod served;
pub mod session;
pub mod terminal;
