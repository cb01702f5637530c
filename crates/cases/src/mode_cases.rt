//! Cases on the wide modes.

use crate::hexadecimal::{parse_bytes, show_bytes};
use aes::Aes128;
use anyhow::anyhow;
use ciphers::BlockCipher;
use ciphers::mask::Mask;
use heh::Heh;
use modes::ModeFault;
use std::alloc::Global;
use tet::Tet;
use tweak_modes::TweakMode;
use xtea::Xtea;

/// One case: the words of its line.
#[derive(Drop)]
pub struct Case<'a> {
    pub mode: &'a str,
    pub cipher: &'a str,
    pub direction: &'a str,
    pub size: &'a str,
    pub key: &'a str,
    pub tweak: &'a str,
    pub sector: &'a str,
}

fn through<M: TweakMode>(
    direction: &str,
    size: usize,
    key: &[u8],
    tweak: &[u8],
    sector: &mut [u8],
) -> Result<(), ModeFault> {
    let mut mode = M::blank();
    mode.key(key, size)?;
    // Stays: the word comes from a line of the table; a closure in its place would be picked by the same match.
    match direction {
        "decipher" => mode.decipher_with_tweak(tweak, sector),
        _ => mode.encipher_with_tweak(tweak, sector),
    }
}

fn with_mode<M: TweakMode>(heap: Global, case: &Case) -> anyhow::Result<String> {
    let size = case.size.parse::<usize>()?;
    let key = parse_bytes(heap, case.key)?;
    let tweak = parse_bytes(heap, case.tweak)?;
    let mut sector = parse_bytes(heap, case.sector)?;
    match through::<M>(case.direction, size, &key, &tweak, &mut sector) {
        Ok(()) => show_bytes(heap, &sector),
        Err(fault) => Ok(format!(in heap; "refused {fault}")?),
    }
}

fn with_cipher<C: BlockCipher>(heap: Global, case: &Case) -> anyhow::Result<String> {
    // Stays: each arm has another type, which a name of the table picks.
    match case.mode {
        "tet" => with_mode::<Tet<C>>(heap, case),
        _ => with_mode::<Heh<C>>(heap, case),
    }
}

// Stays: each arm has another type, and a function that is generic in a type is no value that one table of names could hand on.
pub fn answer(heap: Global, case: &Case) -> anyhow::Result<String> {
    match case.cipher {
        "aes-128" => with_cipher::<Aes128>(heap, case),
        "xtea" => with_cipher::<Xtea>(heap, case),
        "mask-1" => with_cipher::<Mask<u8>>(heap, case),
        "mask-8" => with_cipher::<Mask<u64>>(heap, case),
        "mask-16" => with_cipher::<Mask<u128>>(heap, case),
        _ => Err(anyhow!("no such cipher")),
    }
}
