//! Sums of powers of a hash value τ.

ghost use Rattle.std.specs.Prelude.{◌≡◌, ℕ};
ghost use Rattle.rings.specs.Blocks.{blocks};
ghost use Rattle.rings.specs.Sums.{hash_sum, sigma};

use crate::BlockRing;

/// H(τ; B_1..B_m) = B_1·τ^m + .. + B_m·τ over the whole blocks of a sector, by Horner's rule.
pub fn hash_sum<R: BlockRing>(tau: R, sector: &[u8]) -> R
    ensures { R.value result ≡ hash_sum R.ring (R.value tau) (blocks R.ring.width sector.now) }
{
    let mut sum = R::zero();
    for block in sector.chunks_exact(R::width()) {
        sum = sum.add(R::from_bytes(block)).multiply(tau);
    }
    sum
}

/// τ^k·(1 + τ + .. + τ^(k-1)), without a product for k = 1.
fn times_first_powers<R: BlockRing>(k: usize, power: R, sum: R) -> R
    requires { k ≡ 1 → R.value sum ≡ 1 }
    ensures { R.value result ≡ R.ring.product (R.value power) (R.value sum) }
{
    if k == 1 {
        return power;
    }
    power.multiply(sum)
}

/// σ = 1 + τ + .. + τ^m, in about two products for each bit of m: from the first k powers and τ^k come the first 2k.
pub fn power_sum<R: BlockRing>(tau: R, m: usize) -> R
    ensures { R.value result ≡ sigma R.ring (R.value tau) m }
{
    let one = R::one();
    if m == 0 {
        return one;
    }
    if m == 1 {
        return one.add(tau);
    }
    let half = m / 2;
    let mut sum = one;
    let mut power = tau;
    // Stays: i is the place of a bit of m, and no index.
    for i in (0..half.ilog2()).rev() {
        sum = sum.add(times_first_powers(half >> (i + 1), power, sum));
        power = power.multiply(power);
        if half >> i & 1 == 1 {
            sum = sum.add(power);
            power = tau.multiply(power);
        }
    }
    let more = sum.add(power);
    if m % 2 == 0 {
        sum.add(power.multiply(more))
    } else {
        more.add(tau.multiply(power).multiply(more))
    }
}
