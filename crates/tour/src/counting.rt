//! The bytes of a sector that the walk works on.

/// Fills a sector with 0, 1, 2, .., 255, 0, 1, ..
pub fn fill(sector: &mut [u8]) {
    for (i, byte) in sector.iter_mut().enumerate() {
        *byte = (i % 256) as u8;
    }
}
