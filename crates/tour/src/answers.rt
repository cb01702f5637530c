//! What a call answered, in words.

use std::fmt::Display;
use std::io;

/// Ends the line of a call with its answer.
// Stays: two arms in each program that prints an answer; a crate for them alone would be longer.
pub fn show<E: Display + Drop>(rt: &impl Print, answer: Result<(), E>) -> io::Result<()> {
    match answer {
        Ok(()) => println!(rt; "done"),
        Err(fault) => println!(rt; "refused with {fault}"),
    }
}
