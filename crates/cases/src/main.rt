//! Runs a table of cases on the block rings, the block ciphers and the wide modes: a line each on standard input, an
//! answer each on standard output. Blocks, keys and bytes are in hexadecimal, `-` for no bytes.
//!
//! `ring WIDTH OPERATION A B`, OPERATION one of `add`, `multiply`, `inverse` (of A), `bytes` (the block of the bytes A, written to
//! B bytes), `hash` (the hash sum of the sector B under the hash value A) and `powers` (1 + A + .. + A^B).
//! `cipher NAME DIRECTION KEY BLOCK`, NAME one of `aes-128`, `xtea`, `mask-1`, `mask-8` and `mask-16`, DIRECTION one of
//! `encipher` and `decipher`; the key `new` leaves the cipher as it was made.
//! `mode NAME CIPHER DIRECTION SIZE KEY TWEAK SECTOR`, NAME one of `tet` and `heh`: the mode is keyed for sectors of SIZE bytes and
//! given the sector.

#![tactic(auto)]

use anyhow::anyhow;
use std::alloc::Global;

mod cipher_cases;
mod hexadecimal;
mod mode_cases;
mod ring_cases;

fn answer(heap: Global, line: &str) -> anyhow::Result<String> {
    let mut words = line.split(' ');
    let layer = words.next().unwrap_or("");
    let name = words.next().unwrap_or("");
    let operation = words.next().unwrap_or("");
    let a = words.next().unwrap_or("-");
    let b = words.next().unwrap_or("-");
    match layer {
        "ring" => ring_cases::answer(heap, name, operation, a, b),
        "cipher" => cipher_cases::answer(heap, name, operation, a, b),
        "mode" => {
            let case = mode_cases::Case {
                mode: name,
                cipher: operation,
                direction: a,
                size: b,
                key: words.next().unwrap_or("-"),
                tweak: words.next().unwrap_or("-"),
                sector: words.next().unwrap_or("-"),
            };
            mode_cases::answer(heap, &case)
        }
        _ => Err(anyhow!("no such layer")),
    }
}

fn run(rt: &HostRuntime) -> anyhow::Result<()> {
    for line in rt.lines(rt.alloc()) {
        let line = line?;
        let text = answer(rt.alloc(), line.as_str())?;
        println!(rt; "{text}")?;
    }
    Ok(())
}

fn main(rt: HostRuntime) -> anyhow::Result<()> {
    run(&rt)
}
