//! Block ciphers: a trait, the mask over any block ring, XTEA and AES-128.
//!
//! A cipher holds a key, at first all zero. All ciphers of one Rust type are of one kind (`CipherKind`): a block ring, a key
//! length and, for each key, two maps on blocks that undo each other.

#![tactic(auto)]

ghost use Rattle.std.specs.Prelude.{◌≡◌, ℕ, true, List, Some, decimal, replicate};
ghost use Rattle.ciphers.specs.Answers.{key_answer, key_fault_number};
ghost use Rattle.ciphers.specs.Cipher.{CipherKind, fits, key_after};

use rings::BlockRing;
use std::error::Error;
use std::fmt;

pub mod mask;
pub mod standard;

/// Why a key is refused.
#[derive(Clone, Copy, PartialEq, Eq, Debug)]
pub enum KeyFault {
    WrongLength,
}

impl KeyFault {
    /// The number of the refusal.
    pub fn number(self) -> u8
        ensures number { result ≡ key_fault_number self }
    {
        match self {
            KeyFault::WrongLength => 5,
        }
    }
}

/// The number of the refusal in decimal.
impl fmt::Display for KeyFault {
    ghost output = { λ fault. Some (decimal (key_fault_number fault)) };

    fn fmt<W: fmt::Write>(&self, f: &mut fmt::Formatter<W>) -> fmt::Result {
        fmt::Display::fmt(&self.number(), f)
    }
}

impl Error for KeyFault {}

/// A block cipher with the key that it holds.
pub trait BlockCipher: Drop {
    type Ring: BlockRing;

    ghost kind: { CipherKind };

    ghost held: { Self → List ℕ };

    ghost fitting: { (c : Self) → fits kind (held c) ≡ true };

    /// A cipher under the key of zeros.
    fn new() -> Self
        ensures key_is_zero { held result ≡ replicate kind.key_length 0 };

    /// The length of a key in bytes.
    fn key_length() -> usize
        ensures length { result ≡ kind.key_length };

    /// Holds the key handed in, or refuses it and holds the old one.
    fn set_key(&mut self, key: &[u8]) -> Result<(), KeyFault>
        ensures answer { result ≡ key_answer kind key.now }
        ensures key_is_held { held self.new ≡ key_after kind key.now (held self.old) };

    /// Puts E_K of the block in its place.
    fn encipher(&self, block: &mut Self::Ring)
        ensures block_is_enciphered { Self.Ring.BlockRing.value block.new ≡ kind.encipher (held self.now) (Self.Ring.BlockRing.value block.old) };

    /// Puts D_K of the block in its place.
    fn decipher(&self, block: &mut Self::Ring)
        ensures block_is_deciphered { Self.Ring.BlockRing.value block.new ≡ kind.decipher (held self.now) (Self.Ring.BlockRing.value block.old) };

    ghost over: { kind.ring ≡ Self.Ring.BlockRing.ring };
}
