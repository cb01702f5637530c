//! What was done, in words.

use runs::script::Entry;
use std::fmt::Display;
use std::io;
use volumes::phase::Phase;

// Stays: a few arms in each program that prints an answer, here one more for a call that was not made; a crate for them alone would be longer.
fn call_answer<E: Display + Drop>(
    rt: &impl Print,
    answer: Option<Result<(), E>>,
) -> io::Result<()> {
    match answer {
        Some(Ok(())) => println!(rt; "done"),
        Some(Err(fault)) => println!(rt; "refused with {fault}"),
        None => println!(rt; "not called"),
    }
}

fn phase(rt: &impl Print, phase: Phase) -> io::Result<()> {
    match phase {
        Phase::Closed => println!(rt; "closed"),
        Phase::Open => println!(rt; "open"),
        Phase::Sweeping(mark) => { println!(rt; "sweeping, sectors below {mark} have the new key") }
    }
}

/// The text before the first zero.
fn text(rt: &impl Print, bytes: &[u8]) -> io::Result<()> {
    print!(rt; "    it reads \"")?;
    for byte in bytes {
        match *byte {
            0 => break,
            b' '..=b'~' => {
                let letter = char::from(*byte);
                print!(rt; "{letter}")?
            }
            _ => print!(rt; ".")?,
        }
    }
    println!(rt; "\"")
}

pub fn entry(rt: &impl Print, entry: &Entry) -> io::Result<()> {
    match entry {
        Entry::Open { answer, .. } => {
            print!(rt; "  open: ")?;
            call_answer(rt, *answer)
        }
        Entry::Read {
            sector,
            buffer,
            answer,
        } => {
            print!(rt; "  read sector {sector}: ")?;
            call_answer(rt, *answer)?;
            if let Some(Ok(())) = answer {
                text(rt, buffer)?;
            }
            Ok(())
        }
        Entry::Write { sector, answer, .. } => {
            print!(rt; "  write sector {sector}: ")?;
            call_answer(rt, *answer)
        }
        Entry::Begin { answer, .. } => {
            print!(rt; "  begin a key change: ")?;
            call_answer(rt, *answer)
        }
        Entry::Step { answer } => {
            print!(rt; "  step: ")?;
            call_answer(rt, *answer)
        }
        Entry::Report { answer } => {
            print!(rt; "  report: ")?;
            match answer {
                Some(told) => phase(rt, *told),
                None => println!(rt; "not called"),
            }
        }
    }
}

/// The first bytes of a stored sector.
pub fn stored(rt: &impl Print, sector: usize, bytes: &[u8]) -> io::Result<()> {
    print!(rt; "  sector {sector}: ")?;
    for byte in bytes.iter().take(16) {
        print!(rt; "{byte:02x}")?;
    }
    println!(rt; " ..")
}
