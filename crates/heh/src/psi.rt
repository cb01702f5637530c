//! Ψ and its inverse, in place, on a sector that is cut before its last block.

ghost use Rattle.std.specs.Prelude.{◌≡◌};
ghost use Rattle.passes.specs.Sector.{rowwise};
ghost use Rattle.heh_theory.specs.Heh.{offset, on_blocks};
ghost use Rattle.heh.specs.Halves.{Halves, psi, psi_back};

use passes::blocks::{add_to_each, whiten};
use rings::BlockRing;
use rings::sums::hash_sum;

/// X_i + Y + α^i·β, for i from 1.
fn add_offsets<R: BlockRing>(y: R, beta: R, blocks: &mut [u8])
    ensures { blocks.new ≡ rowwise R.ring.width (on_blocks (offset R.ring (R.value y) (R.value beta))) blocks.old }
{
    add_to_each(y, blocks);
    whiten(beta.times_alpha(), blocks);
}

/// Y = X_m + H(τ; X_1..X_(m-1)); Z_i = X_i + Y + α^i·β for i < m, and Z_m = Y + β.
// Inlined, it knows the length of the last block, which is then read and written as a word.
#[inline(always)]
pub(crate) fn forward<R: BlockRing>(tau: R, beta: R, front: &mut [u8], last: &mut [u8])
    ensures { record { front = front.new; last = last.new } ≡ psi R.ring (R.value tau) (R.value beta) (record { front = front.old; last = last.old }) }
{
    let y = R::from_bytes(last).add(hash_sum(tau, front));
    add_offsets(y, beta, front);
    y.add(beta).to_bytes(last);
}

/// Y = Z_m + β; X_i = Z_i + Y + α^i·β for i < m, and X_m = Y + H(τ; X_1..X_(m-1)).
// Stays: Ψ and its inverse are two formulas; what they share is `add_offsets`.
#[inline(always)]
pub(crate) fn back<R: BlockRing>(tau: R, beta: R, front: &mut [u8], last: &mut [u8])
    ensures { record { front = front.new; last = last.new } ≡ psi_back R.ring (R.value tau) (R.value beta) (record { front = front.old; last = last.old }) }
{
    let y = R::from_bytes(last).add(beta);
    add_offsets(y, beta, front);
    y.add(hash_sum(tau, front)).to_bytes(last);
}
