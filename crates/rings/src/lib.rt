//! Block rings: the arithmetic of the blocks that a sector is made of.
//!
//! A block of w bytes is a polynomial over the field of two elements: the top bit of its first byte is the
//! coefficient of x^(8w-1), the lowest bit of its last byte that of 1. The sum is exclusive or. `BlockRing` says what
//! a ring is, `modular` has the rings of 1, 8 and 16 bytes, and `sums` the hash sum over the blocks of a sector.

#![tactic(auto)]

ghost use Rattle.std.specs.Prelude.{◌≡◌, ℕ, ◌+◌, ◌*◌, ◌/◌, ◌%◌, ◌^◌, ◌<◌, length, bit_xor};
ghost use Rattle.std.specs.Int.Digits.{number_from_digits};
ghost use Rattle.words.specs.Values.{valued};
ghost use Rattle.rings.specs.Blocks.{bytes_of};
ghost use Rattle.rings.specs.Ring.{RingKind, size};

pub mod modular;
pub mod sums;

/// The blocks of a ring, held as plain numbers. All that an implementation shows stands in `RingKind`.
pub trait BlockRing: Copy {
    ghost ring: { RingKind };

    ghost value: { Self → ℕ };

    /// The bytes of a block, w.
    fn width() -> usize
        ensures { result ≡ ring.width };

    /// The greatest length of a sector, in bytes.
    fn longest() -> usize
        ensures { result ≡ ring.longest };

    fn from_number(number: u64) -> Self
        ensures { value result ≡ number % size ring };

    fn zero() -> Self
        ensures { value result ≡ 0 }
    {
        Self::from_number(0)
    }

    /// The unit of the product.
    fn one() -> Self
        ensures { value result ≡ 1 }
    {
        Self::from_number(1)
    }

    /// α, the block of x.
    fn alpha() -> Self
        ensures { value result ≡ 2 }
    {
        Self::from_number(2)
    }

    fn add(self, other: Self) -> Self
        ensures { value result ≡ bit_xor (value self) (value other) };

    fn multiply(self, other: Self) -> Self
        ensures { value result ≡ ring.product (value self) (value other) };

    /// α times the block.
    fn times_alpha(self) -> Self
        ensures { value result ≡ ring.product 2 (value self) }
    {
        Self::alpha().multiply(self)
    }

    /// The block whose product with this one is 1, and `None` exactly where no block has that product.
    fn inverse(self) -> Option<Self>
        ensures { valued value result ≡ ring.inverse (value self) };

    /// The block with one more byte at its low end; the highest byte drops out.
    fn pushed(self, byte: u8) -> Self
        ensures { value result ≡ (value self * 256 + byte) % size ring };

    /// The byte at `index`, counted from the low end; 0 past the block.
    fn byte(self, index: usize) -> u8
        ensures { result ≡ value self / 256 ^ index % 256 };

    /// The block that the bytes write. Fewer than w bytes are its low end, and of more the last w count.
    fn from_bytes(bytes: &[u8]) -> Self
        ensures { value result ≡ number_from_digits 256 bytes.now % size ring }
    {
        let mut block = Self::zero();
        for b in bytes {
            block = block.pushed(*b);
        }
        block
    }

    /// Writes the low end of the block into the bytes, with zeros before it where there is more room.
    fn to_bytes(self, bytes: &mut [u8])
        ensures { bytes.new ≡ bytes_of (length bytes.old) (value self) }
    {
        let count = bytes.len();
        for (i, byte) in bytes.iter_mut().enumerate() {
            *byte = self.byte(count - 1 - i);
        }
    }

    ghost below: { (a : Self) → value a < size ring };
}
