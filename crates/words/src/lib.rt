//! Machine words as polynomials over the field of two elements, and their product and inverse modulo x^n + r.
//!
//! `Word` names the few operations that the arithmetic needs, so that it is written and proved once for every width.

#![tactic(auto)]

ghost use Rattle.std.specs.Prelude.{◌≡◌, ℕ, ◌-◌, ◌*◌, ◌/◌, ◌%◌, ◌^◌, ◌<◌, ◌==◌, bit_xor, nat_lt};
ghost use Rattle.std.specs.Int.Count.{count_leading_zeros};

pub mod arithmetic;
pub mod machine;

/// A word of `size` bits: bit k is the coefficient of x^k.
pub trait Word: Copy {
    ghost size: { ℕ };

    ghost value: { Self → ℕ };

    fn bits() -> u32
        ensures { result ≡ size };

    fn zero() -> Self
        ensures { value result ≡ 0 };

    fn one() -> Self
        ensures { value result ≡ 1 };

    fn is_zero(self) -> bool
        ensures { result ≡ (value self == 0) };

    fn is_one(self) -> bool
        ensures { result ≡ (value self == 1) };

    fn is_below(self, other: Self) -> bool
        ensures { result ≡ nat_lt (value self) (value other) };

    /// The sum of two polynomials.
    fn add(self, other: Self) -> Self
        ensures { value result ≡ bit_xor (value self) (value other) };

    /// x^by times the polynomial, without what passes the word.
    fn shifted(self, by: u32) -> Self
        ensures { value result ≡ value self * 2 ^ by % 2 ^ size };

    fn halved(self) -> Self
        ensures { value result ≡ value self / 2 };

    /// The polynomial divided by x^by, without its lowest `by` coefficients.
    fn lowered(self, by: u32) -> Self
        ensures { value result ≡ value self / 2 ^ by }
    {
        let mut low = self;
        for _ in 0..by {
            low = low.halved();
        }
        low
    }

    /// The highest bit, as a word.
    fn top(self) -> Self
        ensures { value result ≡ value self / 2 ^ (size - 1) };

    /// The word itself where the lowest bit of `bit` is 1, and 0 where it is 0; no branch tells which.
    fn masked(self, bit: Self) -> Self
        ensures { value result ≡ (value bit % 2) * value self };

    fn leading_zeros(self) -> u32
        ensures { result ≡ count_leading_zeros size (value self) };

    ghost some: { 0 < size };

    ghost few: { size < 2 ^ 32 };

    ghost below: { (x : Self) → value x < 2 ^ size };
}
