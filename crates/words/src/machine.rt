//! The machine's unsigned numbers, of whatever width, as words.

ghost use Rattle.std.specs.Prelude.{◌≡◌, ℕ, ◌-◌, ◌%◌, ◌^◌};
ghost use Rattle.num_traits.specs.Laws.{bit_len};
ghost use Rattle.words.specs.Widths.{bits_few, bits_some};
ghost use Rattle.std.proofs.Common.{rules};

use crate::Word;
use num_traits::{One, PrimInt, Unsigned, Zero};

/// The number with each bit set.
fn ones<T: PrimInt + Unsigned>() -> T
    ensures bits { T.bits_of result ≡ 2 ^ bit_len T.width - 1 }
    ensures range { T.fits (T.value result) }
{
    !T::zero()
}

/// The number itself. The mask keeps each bit, and shows to a proof, which does not know the type, that there are no more.
fn whole<T: PrimInt + Unsigned>(number: T) -> T
    ensures { T.bits_of result ≡ T.bits_of number % 2 ^ bit_len T.width }
{
    number & ones::<T>()
}

impl<T: PrimInt + Unsigned> Word for T {
    ghost size = { bit_len T.width };

    ghost value = { λ x. T.bits_of x % 2 ^ bit_len T.width };

    ghost some = { bits_some T.width };

    ghost few = { bits_few T.width };

    ghost below = { Prim.search rules };

    fn bits() -> u32 {
        PrimInt::leading_zeros(T::zero())
    }

    fn zero() -> T {
        Zero::zero()
    }

    fn one() -> T {
        One::one()
    }

    fn is_zero(self) -> bool {
        whole(self) == T::zero()
    }

    fn is_one(self) -> bool {
        whole(self) == T::one()
    }

    fn is_below(self, other: T) -> bool {
        whole(self) < whole(other)
    }

    fn add(self, other: T) -> T {
        whole(self) ^ whole(other)
    }

    fn shifted(self, by: u32) -> T {
        if by < T::bits() {
            self.unsigned_shl(by)
        } else {
            Word::zero()
        }
    }

    fn halved(self) -> T {
        whole(self).unsigned_shr(1)
    }

    // Stays: one function of both shifts would take the shift as a closure, and be no shorter.
    fn lowered(self, by: u32) -> T {
        if by < T::bits() {
            whole(self).unsigned_shr(by)
        } else {
            T::zero()
        }
    }

    fn top(self) -> T {
        whole(self).unsigned_shr(T::bits() - 1)
    }

    fn masked(self, bit: T) -> T {
        (bit & T::one()) * ones::<T>() & self
    }

    fn leading_zeros(self) -> u32 {
        PrimInt::leading_zeros(whole(self))
    }
}
