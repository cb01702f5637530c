//! The tail of a sector: the bytes after its whole blocks.

ghost use Rattle.std.specs.Prelude.{◌≡◌, ◌%◌};
ghost use Rattle.rings.specs.Ring.{size};
ghost use Rattle.passes.specs.Passes.{pad, tail_block, mixed};
ghost use Rattle.passes.specs.Sector.{parted};

use rings::BlockRing;

/// The bytes, the byte 80, then zeros up to w bytes. Of more bytes than that the last w count.
pub fn pad_block<R: BlockRing>(bytes: &[u8]) -> R
    ensures bytes_are_padded { R.value result ≡ pad R.ring bytes.now % size R.ring }
{
    let zeros = R::width().saturating_sub(1).saturating_sub(bytes.len());
    (0..zeros).fold(
        R::from_bytes(bytes).pushed(0x80),
        |block, _| block.pushed(0),
    )
}

/// The padded tail of a sector, or 0 without one.
pub fn tail_block<R: BlockRing>(sector: &[u8]) -> R
    ensures tail_is_padded { R.value result ≡ tail_block R.ring (parted R.ring.width sector.now).tail }
{
    let tail = sector.chunks_exact(R::width()).remainder();
    if tail.is_empty() {
        return R::zero();
    }
    pad_block(tail)
}

/// Adds the first bytes of a block to a tail; what the tail has past a block stays.
pub fn mix<R: BlockRing>(block: R, tail: &mut [u8])
    ensures tail_is_mixed { tail.new ≡ mixed R.ring (R.value block) tail.old }
{
    let w = R::width();
    let reached = tail.len().min(w);
    for (j, byte) in tail[..reached].iter_mut().enumerate() {
        *byte ^= block.byte(w - 1 - j);
    }
}
