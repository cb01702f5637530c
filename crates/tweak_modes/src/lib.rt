//! Wide modes with a tweak in bytes, under one trait.

#![tactic(auto)]

ghost use Rattle.std.specs.Prelude.{◌≡◌, None, Option};
ghost use Rattle.modes.specs.Faults.{answered};
ghost use Rattle.modes.specs.Mode.{Keyed, keyed_after, ciphered};
ghost use Rattle.tet.specs.State.{tet_state};
ghost use Rattle.heh.specs.State.{state_of as heh_state};
ghost use Rattle.tweak_modes.specs.Kinds.{tet_over, heh_over};
ghost use Rattle.tweak_modes.specs.Tweaked.{TweakKind, obstacle_of};

use ciphers::BlockCipher;
use heh::Heh;
use modes::ModeFault;
use tet::Tet;

/// A wide mode that takes a tweak in bytes. All of one Rust type are of one kind: which keys fit which sizes, which tweaks
/// fit, and two maps on sectors that undo each other.
pub trait TweakMode: Drop {
    ghost kind: { TweakKind };

    ghost state: { Self → Option Keyed };

    /// A blank mode.
    fn blank() -> Self
        ensures mode_is_blank { state result ≡ None };

    /// Holds the key for sectors of `size` bytes, or refuses them and stays as it was.
    fn key(&mut self, key: &[u8], size: usize) -> Result<(), ModeFault>
        ensures answer { result ≡ answered (kind.refusal key.now size) }
        ensures pair_is_held { state self.new ≡ keyed_after (kind.refusal key.now size) key.now size (state self.old) };

    /// Enciphers a sector in place under a tweak.
    fn encipher_with_tweak(&self, tweak: &[u8], buffer: &mut [u8]) -> Result<(), ModeFault>
        ensures answer { result ≡ answered (obstacle_of kind (state self.now) tweak.now buffer.old) }
        ensures buffer_is_enciphered { buffer.new ≡ ciphered (λ key size. kind.encipher key size tweak.now) (state self.now) (obstacle_of kind (state self.now) tweak.now buffer.old) buffer.old };

    /// Deciphers a sector in place under a tweak.
    fn decipher_with_tweak(&self, tweak: &[u8], buffer: &mut [u8]) -> Result<(), ModeFault>
        ensures answer { result ≡ answered (obstacle_of kind (state self.now) tweak.now buffer.old) }
        ensures buffer_is_deciphered { buffer.new ≡ ciphered (λ key size. kind.decipher key size tweak.now) (state self.now) (obstacle_of kind (state self.now) tweak.now buffer.old) buffer.old };
}

// Stays: both types' own methods are public with their own contracts, so a trait's methods can only hand on to them.
impl<C: BlockCipher> TweakMode for Tet<C> {
    ghost kind = { tet_over C.BlockCipher.kind };

    ghost state = { λ m. tet_state C.BlockCipher.kind C.BlockCipher.held m };

    fn blank() -> Tet<C> {
        Tet::new()
    }

    fn key(&mut self, key: &[u8], size: usize) -> Result<(), ModeFault> {
        Tet::key(self, key, size)
    }

    fn encipher_with_tweak(&self, tweak: &[u8], buffer: &mut [u8]) -> Result<(), ModeFault> {
        Tet::encipher_with_tweak(self, tweak, buffer)
    }

    fn decipher_with_tweak(&self, tweak: &[u8], buffer: &mut [u8]) -> Result<(), ModeFault> {
        Tet::decipher_with_tweak(self, tweak, buffer)
    }
}

impl<C: BlockCipher> TweakMode for Heh<C> {
    ghost kind = { heh_over C.BlockCipher.kind };

    ghost state = { λ m. heh_state C.BlockCipher.kind C.BlockCipher.held m };

    fn blank() -> Heh<C> {
        Heh::new()
    }

    fn key(&mut self, key: &[u8], size: usize) -> Result<(), ModeFault> {
        Heh::key(self, key, size)
    }

    fn encipher_with_tweak(&self, tweak: &[u8], buffer: &mut [u8]) -> Result<(), ModeFault> {
        Heh::encipher_with_tweak(self, tweak, buffer)
    }

    fn decipher_with_tweak(&self, tweak: &[u8], buffer: &mut [u8]) -> Result<(), ModeFault> {
        Heh::decipher_with_tweak(self, tweak, buffer)
    }
}
