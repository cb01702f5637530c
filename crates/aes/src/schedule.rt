//! The key expansion, and the schedule of the way back.

ghost use Rattle.std.specs.Prelude.{◌≡◌, ℕ, ◌+◌, ◌<◌};
ghost use Rattle.aes.specs.Aes.{rcon, temp, key_expansion};
ghost use Rattle.aes.specs.Columns.{Unmixed};
ghost use Rattle.aes.specs.Laws.{Tabulates};

use crate::steps;
use std::array;

/// Rcon[1] .. Rcon[10]
const RCON: [u32; 10] = [
    0x01000000, 0x02000000, 0x04000000, 0x08000000, 0x10000000, 0x20000000, 0x40000000, 0x80000000,
    0x1b000000, 0x36000000,
];

fn round_constants() -> &'static [u32; 10]
    ensures { Tabulates 10 (λ k. rcon (k + 1)) result.now }
{
    &RCON
}

/// What the word before word i adds to word i - 4.
#[tactic(auto, unfolding(crate::specs::Aes::temp), using(crate::proofs::Expansion::turned_left))]
fn temp(i: usize, last: u32) -> u32
    requires { (3 < i) × (i < 44) }
    ensures { result ≡ temp i last }
{
    if i % 4 == 0 {
        steps::sub_word(last.rotate_left(8)) ^ round_constants()[i / 4 - 1]
    } else {
        last
    }
}

#[tactic(auto, unfolding(crate::specs::Aes::word, crate::specs::Aes::expansion), using(crate::proofs::Chunks::word_at))]
pub(crate) fn expand(key: &[u8; 16]) -> [u32; 44]
    ensures { result ≡ key_expansion key.now }
{
    let (words, _) = key.as_chunks::<4>();
    let first: [u32; 4] = array::from_fn(|i| u32::from_be_bytes(words[i]));
    let mut w = [0; 44];
    w[..4].copy_from_slice(&first);
    // Stays: each word is made of two that the loop has written before.
    for i in 4..44usize {
        w[i] = w[i - 4] ^ temp(i, w[i - 1]);
    }
    w
}

pub(crate) fn unmix(w: &[u32; 44]) -> [u32; 44]
    ensures { Unmixed w.now result }
{
    array::from_fn(|i| steps::inv_mix_column(w[i]))
}
