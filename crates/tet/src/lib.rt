//! TET: a wide mode over any block cipher, for sectors of one block to the greatest length, tails included.
//!
//! A sector is hashed into each of its blocks, whitened, enciphered block by block, whitened and hashed again, so that
//! each byte depends on all others and on the tweak. `hash` makes the hash key of a sector size, `tweaks` the offset β of
//! a tweak, and `stages` what is done to a buffer; the equations are `specs/Tet.antt` of `tet_theory`.

#![tactic(auto)]

ghost use Rattle.std.specs.Prelude.{◌≡◌, ℕ, Some, None, refl, IfOk};
ghost use Rattle.std.specs.Result.{result_err};
ghost use Rattle.modes.specs.Faults.{answered};
ghost use Rattle.modes.specs.Mode.{keyed_after, ciphered};
ghost use Rattle.tet_theory.specs.State.{refusal, obstacle};
ghost use Rattle.tet_theory.specs.Tet.{hash_key, encipher, decipher};
ghost use Rattle.tet_theory.proofs.States.{held_fits};
ghost use Rattle.tet.specs.Keys.{key_of};
ghost use Rattle.tet.specs.Kind.{kind_over, sector_tweak};
ghost use Rattle.tet.specs.State.{tet_state};

use crate::hash::{Hash, hash_key};
use crate::stages::*;
use crate::tweaks::tweak_block;
use ciphers::BlockCipher;
use modes::{ModeFault, WideMode};
use rings::BlockRing;

mod hash;
mod stages;
mod tweaks;

/// The longest tweak, in bytes.
const LONGEST_TWEAK: usize = 4096;

/// TET with two keyed ciphers and a sector size. It is blank where these have no hash key.
#[derive(Drop)]
pub struct Tet<C> {
    first: C,
    second: C,
    size: usize,
}

/// The tweak of a sector number: the number in 8 bytes, the first the highest.
fn tweak_of(number: u32) -> [u8; 8]
    ensures { result ≡ sector_tweak number }
{
    u64::from(number).to_be_bytes()
}

impl<C: BlockCipher> Tet<C> {
    /// A blank mode.
    pub fn new() -> Tet<C>
        ensures mode_is_blank { tet_state C.BlockCipher.kind C.BlockCipher.held result ≡ None }
    {
        Tet {
            first: C::new(),
            second: C::new(),
            size: 0,
        }
    }

    /// Holds the key, K1 then K2, for sectors of `size` bytes, or refuses them and stays as it was.
    pub fn key(&mut self, key: &[u8], size: usize) -> Result<(), ModeFault>
        ensures answer { result ≡ answered (refusal C.BlockCipher.kind key.now size) }
        ensures pair_is_held { tet_state C.BlockCipher.kind C.BlockCipher.held self.new ≡ keyed_after (refusal C.BlockCipher.kind key.now size) key.now size (tet_state C.BlockCipher.kind C.BlockCipher.held self.old) }
    {
        let half = key.len() / 2;
        let mut first = C::new();
        first.set_key(&key[..half])?;
        let mut second = C::new();
        second.set_key(&key[half..])?;
        if size < C::Ring::width() || C::Ring::longest() < size {
            return Err(ModeFault::WrongSize);
        }
        let Some(_) = hash_key(&first, size) else {
            return Err(ModeFault::NoInverse);
        };
        self.first = first;
        self.second = second;
        self.size = size;
        Ok(())
    }

    /// The hash key, for a buffer of its size and a tweak that is not too long.
    // Stays: HEH has the same test of its own struct; a trait for both would be longer than the test.
    fn admit(&self, tweak: &[u8], buffer: &[u8]) -> Result<Hash<C::Ring>, ModeFault>
        ensures fault { result_err result ≡ obstacle (tet_state C.BlockCipher.kind C.BlockCipher.held self.now) tweak.now buffer.now }
        ensures hash { IfOk result (λ h. hash_key C.BlockCipher.kind.ring (C.BlockCipher.kind.encipher (C.BlockCipher.held self.now.first)) self.now.size ≡ Some (key_of C.Ring.BlockRing.value h)) }
    {
        let hash = hash_key(&self.first, self.size).ok_or(ModeFault::WrongLength)?;
        if buffer.len() != self.size {
            return Err(ModeFault::WrongLength);
        }
        if LONGEST_TWEAK < tweak.len() {
            return Err(ModeFault::WrongTweak);
        }
        Ok(hash)
    }

    /// Enciphers a sector in place under a tweak of up to 4,096 bytes.
    pub fn encipher_with_tweak(&self, tweak: &[u8], buffer: &mut [u8]) -> Result<(), ModeFault>
        ensures answer { result ≡ answered (obstacle (tet_state C.BlockCipher.kind C.BlockCipher.held self.now) tweak.now buffer.old) }
        ensures buffer_is_enciphered { buffer.new ≡ ciphered (λ key size. encipher C.BlockCipher.kind key size tweak.now) (tet_state C.BlockCipher.kind C.BlockCipher.held self.now) (obstacle (tet_state C.BlockCipher.kind C.BlockCipher.held self.now) tweak.now buffer.old) buffer.old }
    {
        let hash = self.admit(tweak, buffer)?;
        let beta = tweak_block(&self.first, self.size, tweak);
        encipher_sector(&self.second, hash, beta, buffer);
        Ok(())
    }

    /// Deciphers a sector in place under a tweak of up to 4,096 bytes.
    // Stays: the two directions are two calls, with a clause each; what they share is `admit`.
    pub fn decipher_with_tweak(&self, tweak: &[u8], buffer: &mut [u8]) -> Result<(), ModeFault>
        ensures answer { result ≡ answered (obstacle (tet_state C.BlockCipher.kind C.BlockCipher.held self.now) tweak.now buffer.old) }
        ensures buffer_is_deciphered { buffer.new ≡ ciphered (λ key size. decipher C.BlockCipher.kind key size tweak.now) (tet_state C.BlockCipher.kind C.BlockCipher.held self.now) (obstacle (tet_state C.BlockCipher.kind C.BlockCipher.held self.now) tweak.now buffer.old) buffer.old }
    {
        let hash = self.admit(tweak, buffer)?;
        let beta = tweak_block(&self.first, self.size, tweak);
        decipher_sector(&self.second, hash, beta, buffer);
        Ok(())
    }
}

// Stays: HEH's lines are alike, and hand on to its own methods: what a trait is for.
impl<C: BlockCipher> WideMode for Tet<C> {
    ghost kind = { kind_over C.BlockCipher.kind };

    ghost state = { λ m. tet_state C.BlockCipher.kind C.BlockCipher.held m };

    ghost fitting = { λ m. held_fits C.BlockCipher.kind (C.BlockCipher.held m.first) (C.BlockCipher.held m.second) (C.BlockCipher.fitting m.first) (C.BlockCipher.fitting m.second) m.size (kind_over C.BlockCipher.kind) (λ key n. refl) };

    fn key(&mut self, key: &[u8], size: usize) -> Result<(), ModeFault> {
        Tet::key(self, key, size)
    }

    fn encipher(&self, number: u32, buffer: &mut [u8]) -> Result<(), ModeFault> {
        self.encipher_with_tweak(&tweak_of(number), buffer)
    }

    fn decipher(&self, number: u32, buffer: &mut [u8]) -> Result<(), ModeFault> {
        self.decipher_with_tweak(&tweak_of(number), buffer)
    }
}
