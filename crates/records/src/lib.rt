//! Job records: the reader of one record.
//!
//! A record is a bit map, then the fields whose bits stand, lowest first: three codes of one byte (mode, cipher,
//! direction), then key, tweak and sector, each with its length in two bytes, the first the higher. `specs/Record.antt` says
//! what each record reads as; `reader` takes one code or one field off the front of a record.

#![tactic(auto)]

ghost use Rattle.std.specs.Prelude.{◌≡◌, ◌<◌, Some, decimal};
ghost use Rattle.std.specs.Option.{ok_or, option_map};
ghost use Rattle.records.specs.Codes.{record_fault_number, mode_named, cipher_named, direction_named, unknown_code_text};
ghost use Rattle.records.specs.Record.{read as read_as, fields as fields_as, stands as stands_in};
ghost use Rattle.records.specs.Writing.{Reading};
ghost use Rattle.records.specs.Views.{task_of, job_or};

use crate::reader::Reader;
use std::error::Error;
use std::fmt;

mod reader;

/// The longest record, in bytes.
const LONGEST: usize = 16384;

/// The bits of the map, each of which says whether a record has the field that it is named after.
const MODE: u8 = 0;

const CIPHER: u8 = 1;

const DIRECTION: u8 = 2;

const KEY: u8 = 3;

const TWEAK: u8 = 4;

const SECTOR: u8 = 5;

/// The codes that an absent one stands for: those of TET, of AES-128 and of enciphering.
const ABSENT_MODE: u8 = 1;

const ABSENT_CIPHER: u8 = 1;

const ABSENT_DIRECTION: u8 = 0;

/// Why a record is no job.
#[derive(Clone, Copy, PartialEq, Eq, Debug)]
pub enum RecordFault {
    /// It is cut short, too long, has an unknown bit or code, no key or no sector.
    Malformed,
}

impl RecordFault {
    /// The number of the refusal.
    pub fn number(self) -> u8
        ensures number { result ≡ record_fault_number self }
    {
        match self {
            RecordFault::Malformed => 13,
        }
    }
}

/// Prints the number of the refusal.
impl fmt::Display for RecordFault {
    ghost output = { λ fault. Some (decimal (record_fault_number fault)) };

    fn fmt<W: fmt::Write>(&self, f: &mut fmt::Formatter<W>) -> fmt::Result {
        write!(f, "{}", self.number())
    }
}

impl Error for RecordFault {}

/// A code that names nothing.
#[derive(Clone, Copy, PartialEq, Eq, Debug)]
pub struct UnknownCode(pub u8);

impl fmt::Display for UnknownCode {
    ghost output = { λ e. Some (unknown_code_text e) };

    fn fmt<W: fmt::Write>(&self, f: &mut fmt::Formatter<W>) -> fmt::Result {
        write!(f, "unknown code {}", self.0)
    }
}

impl Error for UnknownCode {}

/// A wide mode.
#[derive(Clone, Copy, PartialEq, Eq, Debug)]
pub enum Mode {
    Tet,
    Heh,
}

/// The mode with a code.
impl TryFrom<u8> for Mode {
    type Error = UnknownCode;

    ghost try_from_gives = { λ code r. r ≡ ok_or (mode_named code) (record { 0 = code }) };

    fn try_from(code: u8) -> Result<Mode, UnknownCode> {
        match code {
            1 => Ok(Mode::Tet),
            2 => Ok(Mode::Heh),
            0 | 3..=255 => Err(UnknownCode(code)),
        }
    }
}

/// A block cipher; of the mask, with the bytes of its blocks.
#[derive(Clone, Copy, PartialEq, Eq, Debug)]
pub enum Cipher {
    Aes128,
    Xtea,
    Mask1,
    Mask8,
    Mask16,
}

/// The cipher with a code.
impl TryFrom<u8> for Cipher {
    type Error = UnknownCode;

    ghost try_from_gives = { λ code r. r ≡ ok_or (cipher_named code) (record { 0 = code }) };

    fn try_from(code: u8) -> Result<Cipher, UnknownCode> {
        match code {
            1 => Ok(Cipher::Aes128),
            2 => Ok(Cipher::Xtea),
            3 => Ok(Cipher::Mask1),
            4 => Ok(Cipher::Mask8),
            5 => Ok(Cipher::Mask16),
            0 | 6..=255 => Err(UnknownCode(code)),
        }
    }
}

/// What is done with the sector.
#[derive(Clone, Copy, PartialEq, Eq, Debug)]
pub enum Direction {
    Encipher,
    Decipher,
}

/// The direction with a code.
impl TryFrom<u8> for Direction {
    type Error = UnknownCode;

    ghost try_from_gives = { λ code r. r ≡ ok_or (direction_named code) (record { 0 = code }) };

    fn try_from(code: u8) -> Result<Direction, UnknownCode> {
        match code {
            0 => Ok(Direction::Encipher),
            1 => Ok(Direction::Decipher),
            2..=255 => Err(UnknownCode(code)),
        }
    }
}

/// What a record asks for. Key, tweak and sector lie in the record.
#[derive(Clone, Copy)]
pub struct Job<'a> {
    pub mode: Mode,
    pub cipher: Cipher,
    pub direction: Direction,
    pub key: &'a [u8],
    pub tweak: &'a [u8],
    pub sector: &'a [u8],
}

/// Does this bit of the map stand?
fn stands(map: u8, bit: u8) -> bool
    requires { bit < 8 }
    ensures { result ≡ stands_in bit map }
{
    (map >> bit) % 2 == 1
}

/// The fields whose bits stand, which are all of the bytes.
fn fields(map: u8, bytes: &[u8]) -> Option<Job<'_>>
    ensures { option_map task_of result ≡ fields_as map bytes.now }
{
    let mut reader = Reader { rest: bytes };
    let mode = reader.code(stands(map, MODE), ABSENT_MODE)?;
    let cipher = reader.code(stands(map, CIPHER), ABSENT_CIPHER)?;
    let direction = reader.code(stands(map, DIRECTION), ABSENT_DIRECTION)?;
    let key = reader.field(stands(map, KEY))?;
    let tweak = reader.field(stands(map, TWEAK))?;
    let sector = reader.field(stands(map, SECTOR))?;
    if !reader.rest.is_empty() {
        return None;
    }
    Some(Job {
        mode: Mode::try_from(mode).ok()?,
        cipher: Cipher::try_from(cipher).ok()?,
        direction: Direction::try_from(direction).ok()?,
        key,
        tweak,
        sector,
    })
}

/// The job that a record asks for, or that it is malformed.
pub fn read(bytes: &[u8]) -> Result<Job<'_>, RecordFault>
    ensures job { job_or result ≡ read_as bytes.now }
{
    match bytes {
        [map @ 0..=63, rest @ ..]
            if bytes.len() <= LONGEST && stands(*map, KEY) && stands(*map, SECTOR) => {
            fields(*map, rest).ok_or(RecordFault::Malformed)
        }
        _ => Err(RecordFault::Malformed),
    }
}

/// The record of a task, with all six fields, reads as that task, whatever the task.
pub fn reading_undoes_writing()
    ensures reading { Reading }
{}
