//! Passes over the whole blocks of a sector.

ghost use Rattle.std.specs.Prelude.{◌≡◌};
ghost use Rattle.passes.specs.Passes.{added, whitened, mapped};
ghost use Rattle.passes.specs.Calls.{Replaces};
ghost use Rattle.passes.specs.Sector.{Sector, parted, joined, rowwise};

use ciphers::BlockCipher;
use rings::BlockRing;

/// Puts f of each block in its place, from the first on.
fn map_each<R: BlockRing, F: FnMut(R) -> R>(sector: &mut [u8], mut f: F)
    requires { F.IsAlwaysCallable f }
    ensures { (after : Sector) × Replaces F.step R.value f (parted R.ring.width sector.old) after × (sector.new ≡ joined R.ring.width after) }
{
    let w = R::width();
    // Stays: after a loop over `chunks_exact_mut` a proof knows nothing of the bytes that it wrote.
    for i in 0..sector.len() / w {
        let start = i * w;
        let part = &mut sector[start..start + w];
        f(R::from_bytes(part)).to_bytes(part);
    }
}

/// Adds one block to each.
pub fn add_to_each<R: BlockRing>(block: R, sector: &mut [u8])
    ensures block_is_added { sector.new ≡ rowwise R.ring.width (added (R.value block)) sector.old }
{
    map_each(sector, |x: R| x.add(block));
}

/// Adds α^(i-1)·β to block i, counted from 1.
pub fn whiten<R: BlockRing>(beta: R, sector: &mut [u8])
    ensures sector_is_whitened { sector.new ≡ rowwise R.ring.width (whitened R.ring (R.value beta)) sector.old }
{
    let mut offset = beta;
    map_each(sector, |x: R| {
        let sum = x.add(offset);
        offset = offset.times_alpha();
        sum
    });
}

/// Puts E_K of each block in its place.
pub fn encipher_each<C: BlockCipher>(cipher: &C, sector: &mut [u8])
    ensures blocks_are_enciphered { sector.new ≡ rowwise C.Ring.BlockRing.ring.width (mapped (C.BlockCipher.kind.encipher (C.BlockCipher.held cipher.now))) sector.old }
{
    map_each(sector, |mut block: C::Ring| {
        cipher.encipher(&mut block);
        block
    });
}

/// Puts D_K of each block in its place.
// Stays: the two closures differ in their one call; what they share is `map_each`.
pub fn decipher_each<C: BlockCipher>(cipher: &C, sector: &mut [u8])
    ensures blocks_are_deciphered { sector.new ≡ rowwise C.Ring.BlockRing.ring.width (mapped (C.BlockCipher.kind.decipher (C.BlockCipher.held cipher.now))) sector.old }
{
    map_each(sector, |mut block: C::Ring| {
        cipher.decipher(&mut block);
        block
    });
}
