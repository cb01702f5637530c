//! The mask: a cipher for trials, which adds its key.

ghost use Rattle.std.specs.Prelude.{◌≡◌};
ghost use Rattle.rings.specs.Blocks.{bytes_of};
ghost use Rattle.rings.proofs.Rows.{row_bytes_of};
ghost use Rattle.ciphers.specs.Kinds.{mask as mask_over};
ghost use Rattle.std.proofs.Common.{rules};

use crate::{BlockCipher, KeyFault};
use rings::BlockRing;

#[derive(Drop)]
pub struct Mask<R> {
    key: R,
}

impl<R: BlockRing> BlockCipher for Mask<R> {
    type Ring = R;

    ghost kind = { mask_over R.BlockRing.ring };

    ghost held = { λ c. bytes_of R.BlockRing.ring.width (R.BlockRing.value c.key) };

    ghost fitting = { λ c. row_bytes_of R.BlockRing.ring.width (R.BlockRing.value c.key) };

    ghost over = { Prim.search rules };

    #[tactic(auto, using(rings::proofs::Rows::bytes_of_zero))]
    fn new() -> Mask<R> {
        Mask { key: R::zero() }
    }

    fn key_length() -> usize {
        R::width()
    }

    fn set_key(&mut self, key: &[u8]) -> Result<(), KeyFault> {
        if key.len() != R::width() {
            return Err(KeyFault::WrongLength);
        }
        self.key = R::from_bytes(key);
        Ok(())
    }

    fn encipher(&self, block: &mut R) {
        *block = block.add(self.key);
    }

    fn decipher(&self, block: &mut R) {
        self.encipher(block);
    }
}
