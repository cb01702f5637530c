//! One sector under one mode: the mode's calls as maps of a sector's bytes.

ghost use Rattle.std.specs.Prelude.{◌≡◌, true, length};
ghost use Rattle.rings.specs.Rows.{row};
ghost use Rattle.volumes.specs.Volume.{mode_answer, mode_check, enciphered_by, deciphered_by};

use devices::fault::{Fault, Reason};
use modes::{ModeFault, WideMode};

/// The most bytes that a sector has.
pub const LARGEST: usize = 4096;

/// No work is done: a caller's proof learns that a buffer is a row of bytes.
// Stays: without it, the proof of a caller was left with the bytes as the mode leaves them, not as they came.
fn holds_bytes(buffer: &[u8])
    ensures { row (length buffer.now) buffer.now ≡ true }
{
    let _empty = buffer.is_empty();
}

/// What a mode answered, as an answer of the sector.
fn sector_answer(answer: Result<(), ModeFault>, sector: u32) -> Result<(), Fault>
    ensures { result ≡ mode_answer answer sector }
{
    answer.map_err(|_| Fault::new(Reason::WrongLength, sector))
}

// Stays: the two differ in one call. One function of both needs a clause for the direction, which is no plainer.
pub fn encipher<M: WideMode>(mode: &M, sector: u32, buffer: &mut [u8]) -> Result<(), Fault>
    ensures call_is_answered { result ≡ mode_check (M.state mode.now) (length buffer.old) sector }
    ensures buffer_is_enciphered { buffer.new ≡ enciphered_by M.kind (M.state mode.now) sector buffer.old }
{
    holds_bytes(buffer);
    sector_answer(mode.encipher(sector, buffer), sector)
}

pub fn decipher<M: WideMode>(mode: &M, sector: u32, buffer: &mut [u8]) -> Result<(), Fault>
    ensures call_is_answered { result ≡ mode_check (M.state mode.now) (length buffer.old) sector }
    ensures buffer_is_deciphered { buffer.new ≡ deciphered_by M.kind (M.state mode.now) sector buffer.old }
{
    holds_bytes(buffer);
    sector_answer(mode.decipher(sector, buffer), sector)
}
