//! The block rings of 1, 8 and 16 bytes, on the machine's own numbers.

ghost use Rattle.std.specs.Prelude.{◌≡◌, ℕ, ◌-◌, ◌*◌, ◌%◌, ◌^◌, ◌<◌, pos, refl};
ghost use Rattle.std.specs.Int.Digits.{number_from_digits};
ghost use Rattle.polynomials.specs.Inverse.{inverse as inverse_of};
ghost use Rattle.polynomials.specs.Polynomial.{product};
ghost use Rattle.rings.specs.Ring.{RingKind, size};
ghost use Rattle.rings.specs.Rings.{ring1, ring8, ring16};
ghost use Rattle.std.proofs.Common.{rules, subst, sym};

use crate::BlockRing;
use num_traits::{AsPrimitive, PrimInt, Unsigned};
use words::{Word, arithmetic};

/// What the ring modulo x^n + low has of its own, where a machine's word of n bits holds a block.
trait Modulus: PrimInt + Unsigned + AsPrimitive<u8> {
    ghost ring: { RingKind };

    const LOW: Self;

    ghost LOW: { Self };

    /// The greatest length of a sector, in bytes.
    const LONGEST: usize;

    ghost LONGEST: { ℕ };

    /// The word that the bytes write, the highest first; of more than it holds the last count.
    fn of_bytes(bytes: &[u8]) -> Self
        ensures { ⟦<Self as Word>⟧.value result ≡ number_from_digits 256 bytes.now % size ring };

    ghost width_is: { 8 * ring.width ≡ ⟦<Self as Word>⟧.size };

    ghost wrap_is: { (n : ℕ) → Self.wrap (pos n) ≡ pos (n % size ring) };

    ghost longest_is: { LONGEST ≡ ring.longest };

    ghost product_is: { (a b : ℕ) → ring.product a b ≡ product ⟦<Self as Word>⟧.size (⟦<Self as Word>⟧.value LOW) a b };

    ghost inverse_is: { (a : ℕ) → ring.inverse a ≡ inverse_of ⟦<Self as Word>⟧.size (⟦<Self as Word>⟧.value LOW) a };
}

/// The last `N` bytes, with zeros before them where there are fewer.
fn last<const N: usize>(bytes: &[u8]) -> [u8; N]
    ensures { number_from_digits 256 result % 256 ^ N ≡ number_from_digits 256 bytes.now % 256 ^ N }
{
    // A whole word is read by a load; a copy of a count that is not known calls the C library.
    if let Some(end) = bytes.last_chunk() {
        return *end;
    }
    let mut end = [0; N];
    let count = bytes.len().min(N);
    let place = &mut end[..];
    place[N - count..].copy_from_slice(&bytes[bytes.len() - count..]);
    end
}

// Stays: one body of `of_bytes`, by `FromBytes<Bytes = [u8; N]>`, was tried. It asks three laws of each word, which bytes
// it reads, their number and N: longer than the function. The constants and laws are each ring's own.
impl Modulus for u8 {
    ghost ring = { ring1 };

    const LOW: u8 = 0x1b;

    ghost LOW = { 0x1b };

    const LONGEST: usize = 31;

    ghost LONGEST = { 31 };

    fn of_bytes(bytes: &[u8]) -> u8 {
        u8::from_be_bytes(last(bytes))
    }

    ghost width_is = { refl };

    ghost wrap_is = { λ n. refl };

    ghost longest_is = { refl };

    ghost product_is = { λ a b. refl };

    ghost inverse_is = { λ a. refl };
}

impl Modulus for u64 {
    ghost ring = { ring8 };

    const LOW: u64 = 0x1b;

    ghost LOW = { 0x1b };

    const LONGEST: usize = 4096;

    ghost LONGEST = { 4096 };

    fn of_bytes(bytes: &[u8]) -> u64 {
        u64::from_be_bytes(last(bytes))
    }

    ghost width_is = { refl };

    ghost wrap_is = { λ n. refl };

    ghost longest_is = { refl };

    ghost product_is = { λ a b. refl };

    ghost inverse_is = { λ a. refl };
}

impl Modulus for u128 {
    ghost ring = { ring16 };

    const LOW: u128 = 0x87;

    ghost LOW = { 0x87 };

    const LONGEST: usize = 4096;

    ghost LONGEST = { 4096 };

    fn of_bytes(bytes: &[u8]) -> u128 {
        u128::from_be_bytes(last(bytes))
    }

    ghost width_is = { refl };

    ghost wrap_is = { λ n. refl };

    ghost longest_is = { refl };

    ghost product_is = { λ a b. refl };

    ghost inverse_is = { λ a. refl };
}

impl<T: Modulus> BlockRing for T
where
    u64: AsPrimitive<T>,
{
    ghost ring = { T.Modulus.ring };

    ghost value = { ⟦<T as Word>⟧.value };

    ghost below = { λ a. subst (λ n. ⟦<T as Word>⟧.value a < 2 ^ n) (sym T.width_is) (Prim.search rules) };

    fn width() -> usize {
        (T::bits() / 8) as usize
    }

    fn longest() -> usize {
        T::LONGEST
    }

    fn from_number(number: u64) -> T {
        number.as_()
    }

    fn add(self, other: T) -> T {
        Word::add(self, other)
    }

    fn multiply(self, other: T) -> T {
        arithmetic::multiply(T::LOW, self, other)
    }

    fn times_alpha(self) -> T {
        arithmetic::xtime(T::LOW, self)
    }

    fn inverse(self) -> Option<T> {
        arithmetic::inverse(T::LOW, self)
    }

    fn pushed(self, byte: u8) -> T {
        Word::add(self.shifted(8), T::from_number(byte as u64))
    }

    fn byte(self, index: usize) -> u8 {
        if index < Self::width() {
            self.lowered(8 * index as u32).as_()
        } else {
            0
        }
    }

    fn from_bytes(bytes: &[u8]) -> T {
        // So few bytes are read one by one in less time than they are copied to the end of a word.
        if Self::width() <= 8 && bytes.len() < Self::width() {
            let mut block = T::from_number(0);
            for b in bytes {
                block = block.pushed(*b);
            }
            return block;
        }
        T::of_bytes(bytes)
    }
}
