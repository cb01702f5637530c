//! Bytes and blocks as hexadecimal text.

use anyhow::anyhow;
use rings::BlockRing;
use std::alloc::Global;

// Stays: the table's digits are of lower case alone, and the kit's `hex::decode` takes both.
fn digit(c: u8) -> anyhow::Result<u8> {
    match c {
        b'0'..=b'9' => Ok(c - b'0'),
        b'a'..=b'f' => Ok(c - b'a' + 10),
        _ => Err(anyhow!("not a hexadecimal digit")),
    }
}

pub fn parse_bytes(heap: Global, text: &str) -> anyhow::Result<Vec<u8>> {
    let mut bytes = Vec::new(heap);
    if text == "-" {
        return Ok(bytes);
    }
    let (pairs, half) = text.as_bytes().as_chunks::<2>();
    for [high, low] in pairs {
        bytes.push((digit(*high)? & 15) << 4 | digit(*low)?)?;
    }
    if let [c] = half {
        digit(*c)?;
        return Err(anyhow!("half a byte"));
    }
    Ok(bytes)
}

pub fn parse_block<R: BlockRing>(heap: Global, text: &str) -> anyhow::Result<R> {
    let bytes = parse_bytes(heap, text)?;
    Ok(R::from_bytes(bytes.as_slice()))
}

pub fn show_bytes(heap: Global, bytes: &[u8]) -> anyhow::Result<String> {
    Ok(hex::encode(heap, bytes)?)
}

pub fn show_block<R: BlockRing>(heap: Global, block: R, count: usize) -> anyhow::Result<String> {
    let mut bytes = vec![in heap; 0u8; count]?;
    block.to_bytes(bytes.as_mut_slice());
    show_bytes(heap, bytes.as_slice())
}
