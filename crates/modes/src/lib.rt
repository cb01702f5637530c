//! Wide modes: the trait of what enciphers a whole sector in place.
//!
//! A mode is blank or holds a key for one sector size. All modes of one Rust type are of one kind (`ModeKind`): which keys
//! fit which sizes and, for each fitting pair and each sector number, two maps on sectors that undo each other.

#![tactic(auto)]

ghost use Rattle.std.specs.Prelude.{◌≡◌, ℕ, Some, Option, decimal};
ghost use Rattle.modes.specs.Faults.{answered, mode_fault_number};
ghost use Rattle.modes.specs.Mode.{ModeKind, Keyed, Fitting, keyed_after, obstacle, ciphered};
ghost use Rattle.modes.specs.declared.ModeFault.TheVariants.{Key as KeyOf};

use ciphers::KeyFault;
use std::error::Error;
use std::fmt;

/// Why a mode refuses a call.
#[derive(Clone, Copy, PartialEq, Eq, Debug)]
pub enum ModeFault {
    /// The buffer has another length than the sector size, or the mode is blank.
    WrongLength,
    /// The cipher refuses the key.
    Key(KeyFault),
    /// The mode does not take this sector size.
    WrongSize,
    /// The power sum σ of the key has no inverse.
    NoInverse,
    /// The tweak has a length that the mode does not take.
    WrongTweak,
    /// A refusal of a mode of another make.
    // Stays: what another make means by its number is not known here.
    Other(u8),
}

impl ModeFault {
    /// The number of the refusal.
    pub fn number(self) -> u8
        ensures number { result ≡ mode_fault_number self }
    {
        match self {
            ModeFault::WrongLength => 2,
            ModeFault::Key(fault) => fault.number(),
            ModeFault::WrongSize => 6,
            ModeFault::NoInverse => 7,
            ModeFault::WrongTweak => 12,
            ModeFault::Other(number) => number,
        }
    }
}

/// The number of the refusal in decimal.
impl fmt::Display for ModeFault {
    ghost output = { λ fault. Some (decimal (mode_fault_number fault)) };

    fn fmt<W: fmt::Write>(&self, f: &mut fmt::Formatter<W>) -> fmt::Result {
        fmt::Display::fmt(&self.number(), f)
    }
}

impl Error for ModeFault {}

impl From<KeyFault> for ModeFault {
    ghost from_gives = { λ x y. y ≡ KeyOf x };

    fn from(value: KeyFault) -> ModeFault {
        ModeFault::Key(value)
    }
}

/// A wide mode with the key and the sector size that it holds, if any.
pub trait WideMode: Drop {
    ghost kind: { ModeKind };

    ghost state: { Self → Option Keyed };

    ghost fitting: { (m : Self) → Fitting kind (state m) };

    /// Holds the key for sectors of `size` bytes, or refuses them and stays as it was.
    fn key(&mut self, key: &[u8], size: usize) -> Result<(), ModeFault>
        ensures answer { result ≡ answered (kind.refusal key.now size) }
        ensures pair_is_held { state self.new ≡ keyed_after (kind.refusal key.now size) key.now size (state self.old) };

    /// Enciphers the sector with this number in place.
    fn encipher(&self, number: u32, buffer: &mut [u8]) -> Result<(), ModeFault>
        ensures answer { result ≡ answered (obstacle (state self.now) buffer.old) }
        ensures buffer_is_enciphered { buffer.new ≡ ciphered (λ key size. kind.encipher key size number) (state self.now) (obstacle (state self.now) buffer.old) buffer.old };

    /// Deciphers the sector with this number in place.
    fn decipher(&self, number: u32, buffer: &mut [u8]) -> Result<(), ModeFault>
        ensures answer { result ≡ answered (obstacle (state self.now) buffer.old) }
        ensures buffer_is_deciphered { buffer.new ≡ ciphered (λ key size. kind.decipher key size number) (state self.now) (obstacle (state self.now) buffer.old) buffer.old };
}
