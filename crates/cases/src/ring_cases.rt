//! Cases on the block rings.

use crate::hexadecimal::{parse_block, parse_bytes, show_block};
use anyhow::anyhow;
use rings::{BlockRing, sums};
use std::alloc::Global;

fn on_ring<R: BlockRing>(
    heap: Global,
    operation: &str,
    a: &str,
    b: &str,
) -> anyhow::Result<String> {
    let width = R::width();
    let block: R = parse_block(heap, a)?;
    // Stays: the word comes from a line of the table; a closure in its place would be picked by the same match.
    match operation {
        "add" => show_block(heap, block.add(parse_block(heap, b)?), width),
        "multiply" => show_block(heap, block.multiply(parse_block(heap, b)?), width),
        "inverse" => match block.inverse() {
            Some(inverse) => show_block(heap, inverse, width),
            None => Ok(String::from_str(heap, "none")?),
        },
        "bytes" => show_block(heap, block, b.parse::<usize>()?),
        "hash" => {
            let sector = parse_bytes(heap, b)?;
            show_block(heap, sums::hash_sum(block, sector.as_slice()), width)
        }
        "powers" => show_block(heap, sums::power_sum(block, b.parse::<usize>()?), width),
        _ => Err(anyhow!("no such operation")),
    }
}

pub fn answer(
    heap: Global,
    width: &str,
    operation: &str,
    a: &str,
    b: &str,
) -> anyhow::Result<String> {
    // Stays: each arm has another type, which a width of the table picks.
    match width {
        "1" => on_ring::<u8>(heap, operation, a, b),
        "8" => on_ring::<u64>(heap, operation, a, b),
        "16" => on_ring::<u128>(heap, operation, a, b),
        _ => Err(anyhow!("no such ring")),
    }
}
