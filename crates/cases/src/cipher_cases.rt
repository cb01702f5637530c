//! Cases on the block ciphers.

use crate::hexadecimal::{parse_block, parse_bytes, show_block};
use aes::Aes128;
use anyhow::anyhow;
use ciphers::BlockCipher;
use ciphers::mask::Mask;
use rings::BlockRing;
use std::alloc::Global;
use xtea::Xtea;

fn with_cipher<C: BlockCipher>(
    heap: Global,
    direction: &str,
    key: &str,
    text: &str,
) -> anyhow::Result<String> {
    let mut cipher = C::new();
    if key != "new" {
        let bytes = parse_bytes(heap, key)?;
        if let Err(fault) = cipher.set_key(bytes.as_slice()) {
            return Ok(format!(in heap; "refused {fault}")?);
        }
    }
    let mut block: C::Ring = parse_block(heap, text)?;
    // Stays: the word comes from a line of the table; a closure in its place would be picked by the same match.
    match direction {
        "encipher" => cipher.encipher(&mut block),
        "decipher" => cipher.decipher(&mut block),
        _ => return Err(anyhow!("no such direction")),
    }
    show_block(heap, block, C::Ring::width())
}

pub fn answer(
    heap: Global,
    name: &str,
    direction: &str,
    key: &str,
    text: &str,
) -> anyhow::Result<String> {
    // Stays: each arm has another type, which a name of the table picks.
    match name {
        "aes-128" => with_cipher::<Aes128>(heap, direction, key, text),
        "xtea" => with_cipher::<Xtea>(heap, direction, key, text),
        "mask-1" => with_cipher::<Mask<u8>>(heap, direction, key, text),
        "mask-8" => with_cipher::<Mask<u64>>(heap, direction, key, text),
        "mask-16" => with_cipher::<Mask<u128>>(heap, direction, key, text),
        _ => Err(anyhow!("no such cipher")),
    }
}
