//! The arithmetic modulo x^n + low, where n is the size of the word.

ghost use Rattle.std.specs.Prelude.{◌≡◌, ℕ, ◌%◌, ◌^◌};
ghost use Rattle.polynomials.specs.Inverse.{inverse as inverse_of};
ghost use Rattle.polynomials.specs.Polynomial.{xtime as xtime_of, product};
ghost use Rattle.words.specs.Values.{valued};

use crate::Word;
use std::mem;

/// x·a
pub fn xtime<W: Word>(low: W, a: W) -> W
    ensures { W.value result ≡ xtime_of W.size (W.value low) (W.value a) }
{
    a.shifted(1).add(low.masked(a.top()))
}

/// x^k·a
pub fn times_power<W: Word>(low: W, a: W, k: u32) -> W
    ensures { W.value result ≡ product W.size (W.value low) (W.value a) (2 ^ k) }
{
    let mut power = a;
    for _ in 0..k {
        power = xtime(low, power);
    }
    power
}

/// a times the polynomial of the lowest eight coefficients of b: the sum of b_k·x^k·a, k < 8.
fn times_byte<W: Word>(low: W, a: W, b: W) -> W
    ensures { W.value result ≡ product W.size (W.value low) (W.value a) (W.value b % 2 ^ 8) }
{
    let mut sum = W::zero();
    let mut power = a;
    // Stays: k is the degree of a coefficient, and no index.
    for k in 0..8u32 {
        sum = sum.add(power.masked(b.lowered(k)));
        power = xtime(low, power);
    }
    sum
}

/// x^8·a. The eight coefficients that pass the word stand at x^n and above, and x^n is low.
fn times_x8<W: Word>(low: W, a: W) -> W
    ensures { W.value result ≡ product W.size (W.value low) (W.value a) (2 ^ 8) }
{
    if W::bits() < 8 {
        return times_power(low, a, 8);
    }
    let over = a.lowered(W::bits() - 8);
    let kept = a.shifted(8);
    if low.lowered(8).is_zero() {
        kept.add(times_byte(low, over, low))
    } else {
        kept.add(times_byte(low, low, over))
    }
}

/// a·b, in a time that does not depend on the operands: Horner's rule over b, eight coefficients a turn.
pub fn multiply<W: Word>(low: W, a: W, b: W) -> W
    ensures { W.value result ≡ product W.size (W.value low) (W.value a) (W.value b) }
{
    let mut sum = W::zero();
    // Stays: i is the place of eight coefficients, and no index.
    for i in (0..W::bits().div_ceil(8)).rev() {
        sum = times_x8(low, sum).add(times_byte(low, a, b.lowered(8 * i)));
    }
    sum
}

/// The inverse of a, where it has one, by Euclid's algorithm: always g·a = u and h·a = v modulo x^n + low,
/// and what divides u and v divides a and the modulus. Its time depends on a.
pub fn inverse<W: Word>(low: W, a: W) -> Option<W>
    ensures { valued W.value result ≡ inverse_of W.size (W.value low) (W.value a) }
{
    if a.is_zero() {
        return None;
    }
    if a.is_one() {
        return Some(a);
    }
    let j = a.leading_zeros() + 1;
    let mut u = low.add(a.shifted(j));
    let mut v = a;
    let mut g = W::one().shifted(j);
    let mut h = W::one();
    // Stays: the algorithm ends by its remainder, which nothing counts.
    while !u.is_zero() {
        if u.is_below(v) {
            mem::swap(&mut u, &mut v);
            mem::swap(&mut g, &mut h);
        }
        let k = v.leading_zeros() - u.leading_zeros();
        u = u.add(v.shifted(k));
        g = g.add(times_power(low, h, k));
    }
    if v.is_one() { Some(h) } else { None }
}
