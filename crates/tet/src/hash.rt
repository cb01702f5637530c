//! The hash key of a sector size.

ghost use Rattle.std.specs.Prelude.{◌≡◌};
ghost use Rattle.tet.specs.Keys.{keys_of};
ghost use Rattle.tet_theory.specs.Tet.{hash_key};

use ciphers::BlockCipher;
use rings::BlockRing;
use rings::sums::power_sum;

/// τ, σ and 1/σ.
#[derive(Clone, Copy)]
pub(crate) struct Hash<R> {
    pub tau: R,
    pub sigma: R,
    pub inverse: R,
}

/// τ = E(α·E(0)), σ = 1 + τ + .. + τ^m and 1/σ for sectors of `size` bytes. `None` where the size is not taken, or σ has
/// no inverse.
pub(crate) fn hash_key<C: BlockCipher>(cipher: &C, size: usize) -> Option<Hash<C::Ring>>
    ensures hash_key { keys_of C.Ring.BlockRing.value result ≡ hash_key C.Ring.BlockRing.ring (C.BlockCipher.kind.encipher (C.BlockCipher.held cipher.now)) size }
{
    let w = C::Ring::width();
    if size < w || C::Ring::longest() < size {
        return None;
    }
    let mut block = C::Ring::zero();
    cipher.encipher(&mut block);
    let mut tau = block.times_alpha();
    cipher.encipher(&mut tau);
    let sigma = power_sum(tau, size / w);
    match sigma.inverse() {
        Some(inverse) => Some(Hash {
            tau,
            sigma,
            inverse,
        }),
        None => None,
    }
}
