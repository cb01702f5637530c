//! The stages of a sector, in place.

ghost use Rattle.std.specs.Prelude.{◌≡◌, ℕ};
ghost use Rattle.passes.specs.Sector.{rowwise};
ghost use Rattle.tet.specs.Keys.{key_of};
ghost use Rattle.tet_theory.specs.Tet.{blended, unblended, crypted_tail, enciphered, deciphered};

use crate::hash::Hash;
use ciphers::BlockCipher;
use passes::blocks::*;
use passes::tails::*;
use rings::BlockRing;
use rings::sums::hash_sum;

/// X_i + H(τ;X)·(1/σ) + p
// Stays: the stages are functions of a sector; as methods of the hash key, two of them would stand away from the others.
fn blend<R: BlockRing>(hash: Hash<R>, sector: &mut [u8])
    ensures { sector.new ≡ rowwise R.ring.width (blended R.ring (key_of R.value hash)) sector.old }
{
    let sum = hash_sum(hash.tau, sector)
        .multiply(hash.inverse)
        .add(tail_block(sector));
    add_to_each(sum, sector);
}

/// X_i + H(τ;X) + σ·p
fn unblend<R: BlockRing>(hash: Hash<R>, sector: &mut [u8])
    ensures { sector.new ≡ rowwise R.ring.width (unblended R.ring (key_of R.value hash)) sector.old }
{
    let sum = hash_sum(hash.tau, sector).add(hash.sigma.multiply(tail_block(sector)));
    add_to_each(sum, sector);
}

/// With a tail, f(U) takes the place of the last block, U, and U's first bytes are added to the tail.
fn crypt_tail<R: BlockRing, F: FnOnce(R) -> R>(sector: &mut [u8], f: F)
    requires { F.IsAlwaysCallable f }
    ensures { (g : ℕ → ℕ) → ((x y : R) → F.post f x y → R.value y ≡ g (R.value x)) → sector.new ≡ rowwise R.ring.width (crypted_tail R.ring g) sector.old }
{
    let w = R::width();
    let whole = sector.len() / w * w;
    let (blocks, tail) = sector.split_at_mut(whole);
    if blocks.is_empty() || tail.is_empty() {
        return;
    }
    let last = &mut blocks[whole - w..];
    let middle = R::from_bytes(last);
    f(middle).to_bytes(last);
    mix(middle, tail);
}

/// From P to C.
// Stays: what the two directions do not share would be three closures.
pub(crate) fn encipher_sector<C: BlockCipher>(
    cipher: &C,
    hash: Hash<C::Ring>,
    beta: C::Ring,
    sector: &mut [u8],
)
    ensures { sector.new ≡ rowwise C.Ring.BlockRing.ring.width (enciphered C.Ring.BlockRing.ring (C.BlockCipher.kind.encipher (C.BlockCipher.held cipher.now)) (key_of C.Ring.BlockRing.value hash) (C.Ring.BlockRing.value beta)) sector.old }
{
    blend(hash, sector);
    whiten(beta, sector);
    encipher_each(cipher, sector);
    crypt_tail(sector, |mut block: C::Ring| {
        cipher.encipher(&mut block);
        block
    });
    whiten(beta, sector);
    blend(hash, sector);
}

/// From C to P.
pub(crate) fn decipher_sector<C: BlockCipher>(
    cipher: &C,
    hash: Hash<C::Ring>,
    beta: C::Ring,
    sector: &mut [u8],
)
    ensures { sector.new ≡ rowwise C.Ring.BlockRing.ring.width (deciphered C.Ring.BlockRing.ring (C.BlockCipher.kind.decipher (C.BlockCipher.held cipher.now)) (key_of C.Ring.BlockRing.value hash) (C.Ring.BlockRing.value beta)) sector.old }
{
    unblend(hash, sector);
    whiten(beta, sector);
    decipher_each(cipher, sector);
    crypt_tail(sector, |mut block: C::Ring| {
        cipher.decipher(&mut block);
        block
    });
    whiten(beta, sector);
    unblend(hash, sector);
}
