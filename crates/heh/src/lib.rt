//! HEH: a wide mode over any block cipher, with one key and a tweak of one block.
//!
//! A sector of m blocks goes through Ψ, the cipher block by block, and the inverse of Ψ. Ψ adds to each block one sum of
//! them all, and offsets from the tweak and the length. `psi` has Ψ and its inverse on a buffer, `sectors` both directions.

#![tactic(auto)]

ghost use Rattle.std.specs.Prelude.{◌≡◌, None, refl};
ghost use Rattle.modes.specs.Faults.{answered};
ghost use Rattle.modes.specs.Mode.{keyed_after, obstacle, ciphered};
ghost use Rattle.heh_theory.specs.Heh.{size_fits, encipher, decipher, encipher_sector, decipher_sector};
ghost use Rattle.heh_theory.specs.State.{refusal, obstacle_with};
ghost use Rattle.heh_theory.proofs.Refusals.{held_fits};
ghost use Rattle.heh.specs.Kind.{kind_over};
ghost use Rattle.heh.specs.State.{state_of};

use ciphers::BlockCipher;
use modes::{ModeFault, WideMode};
use rings::BlockRing;

mod psi;
mod sectors;

/// A cipher under its key, and the sector size in bytes. Blank where the size is none that the mode takes.
#[derive(Drop)]
pub struct Heh<C> {
    cipher: C,
    size: usize,
}

/// Is it a multiple of w, from w to the greatest length?
fn takes<R: BlockRing>(size: usize) -> bool
    ensures { result ≡ size_fits R.ring size }
{
    let w = R::width();
    size % w == 0 && w <= size && size <= R::longest()
}

impl<C: BlockCipher> Heh<C> {
    /// A blank mode.
    pub fn new() -> Heh<C>
        ensures blank { state_of C.BlockCipher.kind C.BlockCipher.held result ≡ None }
    {
        Heh {
            cipher: C::new(),
            size: 0,
        }
    }

    /// Holds the key for sectors of `size` bytes, or refuses them and stays as it was.
    pub fn key(&mut self, key: &[u8], size: usize) -> Result<(), ModeFault>
        ensures answer { result ≡ answered (refusal C.BlockCipher.kind key.now size) }
        ensures pair_is_held { state_of C.BlockCipher.kind C.BlockCipher.held self.new ≡ keyed_after (refusal C.BlockCipher.kind key.now size) key.now size (state_of C.BlockCipher.kind C.BlockCipher.held self.old) }
    {
        let mut cipher = C::new();
        cipher.set_key(key)?;
        if !takes::<C::Ring>(size) {
            return Err(ModeFault::WrongSize);
        }
        self.cipher = cipher;
        self.size = size;
        Ok(())
    }

    /// Refuses a buffer of another length than the size, and any buffer where the mode is blank.
    fn admit(&self, buffer: &[u8]) -> Result<(), ModeFault>
        ensures answer { result ≡ answered (obstacle (state_of C.BlockCipher.kind C.BlockCipher.held self.now) buffer.now) }
    {
        if !takes::<C::Ring>(self.size) || buffer.len() != self.size {
            return Err(ModeFault::WrongLength);
        }
        Ok(())
    }

    /// Refuses such a buffer, and then a tweak that is not one block long.
    fn admit_with_tweak(&self, tweak: &[u8], buffer: &[u8]) -> Result<(), ModeFault>
        ensures answer { result ≡ answered (obstacle_with C.BlockCipher.kind (state_of C.BlockCipher.kind C.BlockCipher.held self.now) tweak.now buffer.now) }
    {
        self.admit(buffer)?;
        if tweak.len() != C::Ring::width() {
            return Err(ModeFault::WrongTweak);
        }
        Ok(())
    }

    /// Enciphers a sector in place, with a tweak of one block.
    pub fn encipher_with_tweak(&self, tweak: &[u8], buffer: &mut [u8]) -> Result<(), ModeFault>
        ensures answer { result ≡ answered (obstacle_with C.BlockCipher.kind (state_of C.BlockCipher.kind C.BlockCipher.held self.now) tweak.now buffer.old) }
        ensures buffer_is_enciphered { buffer.new ≡ ciphered (λ key size. encipher C.BlockCipher.kind key size tweak.now) (state_of C.BlockCipher.kind C.BlockCipher.held self.now) (obstacle_with C.BlockCipher.kind (state_of C.BlockCipher.kind C.BlockCipher.held self.now) tweak.now buffer.old) buffer.old }
    {
        self.admit_with_tweak(tweak, buffer)?;
        sectors::encipher(&self.cipher, C::Ring::from_bytes(tweak), buffer);
        Ok(())
    }

    /// Deciphers a sector in place, with a tweak of one block.
    // Stays: the two directions are two calls, with a clause each; what they share is `admit_with_tweak` and `wrap`.
    pub fn decipher_with_tweak(&self, tweak: &[u8], buffer: &mut [u8]) -> Result<(), ModeFault>
        ensures answer { result ≡ answered (obstacle_with C.BlockCipher.kind (state_of C.BlockCipher.kind C.BlockCipher.held self.now) tweak.now buffer.old) }
        ensures buffer_is_deciphered { buffer.new ≡ ciphered (λ key size. decipher C.BlockCipher.kind key size tweak.now) (state_of C.BlockCipher.kind C.BlockCipher.held self.now) (obstacle_with C.BlockCipher.kind (state_of C.BlockCipher.kind C.BlockCipher.held self.now) tweak.now buffer.old) buffer.old }
    {
        self.admit_with_tweak(tweak, buffer)?;
        sectors::decipher(&self.cipher, C::Ring::from_bytes(tweak), buffer);
        Ok(())
    }

    /// Enciphers the sector with this number in place: its tweak is the number modulo 2^n, as a block.
    pub fn encipher_sector(&self, number: u32, buffer: &mut [u8]) -> Result<(), ModeFault>
        ensures answer { result ≡ answered (obstacle (state_of C.BlockCipher.kind C.BlockCipher.held self.now) buffer.old) }
        ensures buffer_is_enciphered { buffer.new ≡ ciphered (λ key size. encipher_sector C.BlockCipher.kind key size number) (state_of C.BlockCipher.kind C.BlockCipher.held self.now) (obstacle (state_of C.BlockCipher.kind C.BlockCipher.held self.now) buffer.old) buffer.old }
    {
        self.admit(buffer)?;
        let tweak = C::Ring::from_number(u64::from(number));
        sectors::encipher(&self.cipher, tweak, buffer);
        Ok(())
    }

    /// Deciphers the sector with this number in place: its tweak is the number modulo 2^n, as a block.
    // Stays: as above; what they share is `admit` and `wrap`.
    pub fn decipher_sector(&self, number: u32, buffer: &mut [u8]) -> Result<(), ModeFault>
        ensures answer { result ≡ answered (obstacle (state_of C.BlockCipher.kind C.BlockCipher.held self.now) buffer.old) }
        ensures buffer_is_deciphered { buffer.new ≡ ciphered (λ key size. decipher_sector C.BlockCipher.kind key size number) (state_of C.BlockCipher.kind C.BlockCipher.held self.now) (obstacle (state_of C.BlockCipher.kind C.BlockCipher.held self.now) buffer.old) buffer.old }
    {
        self.admit(buffer)?;
        let tweak = C::Ring::from_number(u64::from(number));
        sectors::decipher(&self.cipher, tweak, buffer);
        Ok(())
    }
}

impl<C: BlockCipher> WideMode for Heh<C> {
    ghost kind = { kind_over C.BlockCipher.kind };

    ghost state = { λ m. state_of C.BlockCipher.kind C.BlockCipher.held m };

    ghost fitting = { λ m. held_fits C.BlockCipher.kind (C.BlockCipher.held m.cipher) m.size (C.BlockCipher.fitting m.cipher) (kind_over C.BlockCipher.kind) (λ key n. refl) };

    fn key(&mut self, key: &[u8], size: usize) -> Result<(), ModeFault> {
        Heh::key(self, key, size)
    }

    fn encipher(&self, number: u32, buffer: &mut [u8]) -> Result<(), ModeFault> {
        self.encipher_sector(number, buffer)
    }

    fn decipher(&self, number: u32, buffer: &mut [u8]) -> Result<(), ModeFault> {
        self.decipher_sector(number, buffer)
    }
}
