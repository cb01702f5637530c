//! β, the offset of a tweak.

ghost use Rattle.std.specs.Prelude.{◌≡◌, ◌≤◌, length};
ghost use Rattle.rings.specs.Blocks.{blocks};
ghost use Rattle.tet_theory.specs.Tet.{chained, last_step, beta as beta_of};

use ciphers::BlockCipher;
use passes::tails::pad_block;
use rings::BlockRing;

/// V_i = E(V_(i-1) + T_i), over the whole blocks of some bytes.
fn chain<C: BlockCipher>(cipher: &C, bytes: &[u8]) -> C::Ring
    ensures { C.Ring.BlockRing.value result ≡ chained C.Ring.BlockRing.ring (C.BlockCipher.kind.encipher (C.BlockCipher.held cipher.now)) 0 (blocks C.Ring.BlockRing.ring.width bytes.now) }
{
    let mut v = C::Ring::zero();
    for block in bytes.chunks_exact(C::Ring::width()) {
        v = v.add(C::Ring::from_bytes(block));
        cipher.encipher(&mut v);
    }
    v
}

/// E(α·X + V + T) for a whole block T, else E(α²·X + V + pad(T)).
fn last_step<C: BlockCipher>(cipher: &C, x: C::Ring, v: C::Ring, end: &[u8]) -> C::Ring
    requires { length end.now ≤ C.Ring.BlockRing.ring.width }
    ensures { C.Ring.BlockRing.value result ≡ last_step C.Ring.BlockRing.ring (C.BlockCipher.kind.encipher (C.BlockCipher.held cipher.now)) (C.Ring.BlockRing.value x) (C.Ring.BlockRing.value v) end.now }
{
    let once = x.times_alpha();
    let twice = once.times_alpha();
    let (offset, block) = if end.len() == C::Ring::width() {
        (once, C::Ring::from_bytes(end))
    } else {
        (twice, pad_block(end))
    };
    let mut sum = offset.add(v).add(block);
    cipher.encipher(&mut sum);
    sum
}

/// β for a sector size and a tweak, from X = E(L), where L = 8·size.
pub(crate) fn tweak_block<C: BlockCipher>(cipher: &C, size: usize, tweak: &[u8]) -> C::Ring
    requires { size ≤ C.Ring.BlockRing.ring.longest }
    ensures { C.Ring.BlockRing.value result ≡ beta_of C.Ring.BlockRing.ring (C.BlockCipher.kind.encipher (C.BlockCipher.held cipher.now)) size tweak.now }
{
    let w = C::Ring::width();
    let mut x = C::Ring::from_number(8 * size as u64);
    cipher.encipher(&mut x);
    let (ahead, end) = tweak.split_at(tweak.len().saturating_sub(1) / w * w);
    let v = chain(cipher, ahead);
    last_step(cipher, x, v, end)
}
