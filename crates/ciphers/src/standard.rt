//! The published ciphers under the trait.

ghost use Rattle.std.specs.Prelude.{◌≡◌, true, false, MatchResult};
ghost use Rattle.ciphers.specs.Kinds.{aes128, xtea as xtea_kind};
ghost use Rattle.rings.specs.Rows.{row};
ghost use Rattle.rings.proofs.Rows.{row_array};
ghost use Rattle.std.proofs.Common.{rules};

use crate::{BlockCipher, KeyFault};
use aes::Aes128;
use xtea::Xtea;

/// The key as an array, if it has 16 bytes.
fn sixteen(key: &[u8]) -> Result<&[u8; 16], KeyFault>
    ensures { MatchResult result (λ k. (row 16 key.now ≡ true) × (k.now ≡ key.now)) (λ _. row 16 key.now ≡ false) }
{
    key.as_array().ok_or(KeyFault::WrongLength)
}

// Stays: the two impls differ only in the cipher that their lines name, and a trait over both would need the same lines once more.
impl BlockCipher for Xtea {
    type Ring = u64;

    ghost kind = { xtea_kind };

    ghost held = { λ c. c.key };

    ghost fitting = { λ c. row_array 16 c.key c.whole c.bytes };

    ghost over = { Prim.search rules };

    fn new() -> Xtea {
        Xtea::new()
    }

    fn key_length() -> usize {
        16
    }

    fn set_key(&mut self, key: &[u8]) -> Result<(), KeyFault> {
        Xtea::set_key(self, sixteen(key)?);
        Ok(())
    }

    fn encipher(&self, block: &mut u64) {
        *block = Xtea::encipher(self, *block);
    }

    fn decipher(&self, block: &mut u64) {
        *block = Xtea::decipher(self, *block);
    }
}

impl BlockCipher for Aes128 {
    type Ring = u128;

    ghost kind = { aes128 };

    ghost held = { λ c. c.key };

    ghost fitting = { λ c. row_array 16 c.key c.whole c.bytes };

    ghost over = { Prim.search rules };

    fn new() -> Aes128 {
        Aes128::new()
    }

    fn key_length() -> usize {
        16
    }

    fn set_key(&mut self, key: &[u8]) -> Result<(), KeyFault> {
        Aes128::set_key(self, sixteen(key)?);
        Ok(())
    }

    fn encipher(&self, block: &mut u128) {
        *block = Aes128::encipher(self, *block);
    }

    fn decipher(&self, block: &mut u128) {
        *block = Aes128::decipher(self, *block);
    }
}
