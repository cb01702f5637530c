//! A sector enciphered and deciphered in place.

ghost use Rattle.std.specs.Prelude.{◌≡◌, ℕ, ◌≤◌, true, length};
ghost use Rattle.passes.specs.Passes.{mapped};
ghost use Rattle.passes.specs.Sector.{rowwise};
ghost use Rattle.heh_theory.specs.Heh.{beta1 as beta_one, beta2 as beta_two, tau as tau_of, enciphered, deciphered, on_blocks, size_fits};
ghost use Rattle.heh.specs.Halves.{Halves, wrapped};

use crate::psi;
use ciphers::BlockCipher;
use passes::blocks::{decipher_each, encipher_each};
use rings::BlockRing;

/// What a tweak and a length make: τ, β_1 and β_2.
#[derive(Clone, Copy)]
struct TweakKey<R> {
    tau: R,
    beta1: R,
    beta2: R,
}

impl<R: BlockRing> TweakKey<R> {
    /// With β_1 and β_2 exchanged, as the way back has them.
    fn exchanged(self) -> TweakKey<R>
        ensures { result ≡ record { tau = self.tau; beta1 = self.beta2; beta2 = self.beta1 } }
    {
        TweakKey {
            beta1: self.beta2,
            beta2: self.beta1,
            ..self
        }
    }
}

/// τ = E_K(T), β_1 = E_K(τ + L) with L = 8ℓ, β_2 = α·β_1.
// Stays: cipher and tweak are what a call of the mode has; τ, β_1 and β_2, which it makes of them, travel as one.
fn tweak_key<C: BlockCipher>(cipher: &C, tweak: C::Ring, size: usize) -> TweakKey<C::Ring>
    requires { size ≤ C.Ring.BlockRing.ring.longest }
    ensures tau { C.Ring.BlockRing.value result.tau ≡ tau_of C.Ring.BlockRing.ring (C.BlockCipher.kind.encipher (C.BlockCipher.held cipher.now)) (C.Ring.BlockRing.value tweak) }
    ensures beta1 { C.Ring.BlockRing.value result.beta1 ≡ beta_one C.Ring.BlockRing.ring (C.BlockCipher.kind.encipher (C.BlockCipher.held cipher.now)) (C.Ring.BlockRing.value tweak) size }
    ensures beta2 { C.Ring.BlockRing.value result.beta2 ≡ beta_two C.Ring.BlockRing.ring (C.BlockCipher.kind.encipher (C.BlockCipher.held cipher.now)) (C.Ring.BlockRing.value tweak) size }
{
    let mut tau = tweak;
    cipher.encipher(&mut tau);
    let mut beta1 = tau.add(C::Ring::from_number(8 * size as u64));
    cipher.encipher(&mut beta1);
    TweakKey {
        tau,
        beta1,
        beta2: beta1.times_alpha(),
    }
}

/// Ψ with β_1, f on each block, the inverse of Ψ with β_2. f is what `each` does to blocks.
// Stays: front and last are the two loans of one `split_at_mut`; a struct of both would be borrowed anew for each call.
fn wrap<R: BlockRing, F: Fn(&mut [u8])>(
    key: TweakKey<R>,
    front: &mut [u8],
    last: &mut [u8],
    each: F,
)
    requires { F.IsAlwaysCallable each }
    ensures { (f : ℕ → ℕ) → ((x y : _) → F.post each x tt y → y.now ≡ rowwise R.ring.width (mapped f) x.now) → record { front = front.new; last = last.new } ≡ wrapped R.ring f (R.value key.tau) (R.value key.beta1) (R.value key.beta2) (record { front = front.old; last = last.old }) }
{
    psi::forward(key.tau, key.beta1, front, last);
    each(front);
    each(last);
    psi::back(key.tau, key.beta2, front, last);
}

/// Ψ with β_1, E_K on each block, the inverse of Ψ with β_2.
pub(crate) fn encipher<C: BlockCipher>(cipher: &C, tweak: C::Ring, sector: &mut [u8])
    requires { size_fits C.Ring.BlockRing.ring (length sector.old) ≡ true }
    ensures { sector.new ≡ rowwise C.Ring.BlockRing.ring.width (on_blocks (enciphered C.Ring.BlockRing.ring (C.BlockCipher.kind.encipher (C.BlockCipher.held cipher.now)) (C.Ring.BlockRing.value tweak) (length sector.old))) sector.old }
{
    let key = tweak_key(cipher, tweak, sector.len());
    let end = sector.len() - C::Ring::width();
    let (front, last) = sector.split_at_mut(end);
    wrap(key, front, last, |blocks| encipher_each(cipher, blocks));
}

/// Ψ with β_2, D_K on each block, the inverse of Ψ with β_1.
// Stays: the two directions differ in the offsets and the call; what they share is `wrap`.
pub(crate) fn decipher<C: BlockCipher>(cipher: &C, tweak: C::Ring, sector: &mut [u8])
    requires { size_fits C.Ring.BlockRing.ring (length sector.old) ≡ true }
    ensures { sector.new ≡ rowwise C.Ring.BlockRing.ring.width (on_blocks (deciphered C.Ring.BlockRing.ring (C.BlockCipher.kind.encipher (C.BlockCipher.held cipher.now)) (C.BlockCipher.kind.decipher (C.BlockCipher.held cipher.now)) (C.Ring.BlockRing.value tweak) (length sector.old))) sector.old }
{
    let key = tweak_key(cipher, tweak, sector.len());
    let end = sector.len() - C::Ring::width();
    let (front, last) = sector.split_at_mut(end);
    wrap(
        key.exchanged(),
        front,
        last,
        |blocks| decipher_each(cipher, blocks),
    );
}
