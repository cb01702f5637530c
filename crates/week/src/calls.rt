//! The entries of a script.

use runs::script::Entry;
use std::alloc::{AllocError, Global};

pub fn open(heap: Global, key: &[u8]) -> Result<Entry, AllocError> {
    Ok(Entry::Open {
        key: key.to_vec(heap)?,
        answer: None,
    })
}

// Stays: a function of both would take the variant as a closure, and be no shorter.
pub fn begin(heap: Global, key: &[u8]) -> Result<Entry, AllocError> {
    Ok(Entry::Begin {
        key: key.to_vec(heap)?,
        answer: None,
    })
}

/// A read into a buffer of so many bytes.
pub fn read(heap: Global, sector: u32, size: usize) -> Result<Entry, AllocError> {
    Ok(Entry::Read {
        sector,
        buffer: vec![in heap; 0; size]?,
        answer: None,
    })
}

/// A write of a text, with zeros up to the size.
pub fn write(heap: Global, sector: u32, size: usize, text: &[u8]) -> Result<Entry, AllocError> {
    let mut bytes = text.to_vec(heap)?;
    bytes.resize(size, 0)?;
    Ok(Entry::Write {
        sector,
        bytes,
        answer: None,
    })
}

pub fn step() -> Entry {
    Entry::Step { answer: None }
}

pub fn report() -> Entry {
    Entry::Report { answer: None }
}
