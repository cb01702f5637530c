//! The block cipher XTEA with 32 rounds: blocks of 8 bytes, keys of 16.
//!
//! A block is held as the number of its bytes, the first the highest. `specs/Xtea.antt` has the algorithm.

#![tactic(auto)]

ghost use Rattle.std.specs.Prelude.{◌≡◌, ℕ, ◌+◌, ◌*◌, ◌/◌, ◌%◌, ◌^◌, ◌<◌, length, replicate, slice_index};
ghost use Rattle.xtea.specs.Laws.{Undoing};
ghost use Rattle.xtea.specs.Xtea.{change, key_words, encipher as enciphered, decipher as deciphered};

use std::array;

const ROUNDS: u32 = 32;

const DELTA: u32 = 0x9e37_79b9;

/// s after all rounds.
const LAST_SUM: u32 = 0xc6ef_3720;

/// F(v) xor (s + k)
#[tactic(auto, unfolding(crate::specs::Xtea::plus, crate::specs::Xtea::F, crate::specs::Xtea::change))]
fn change_by(v: u32, s: u32, k: u32) -> u32
    ensures { result ≡ change v s k }
{
    ((v << 4) ^ (v >> 5)).wrapping_add(v) ^ s.wrapping_add(k)
}

fn key_words(key: &[u8; 16]) -> [u32; 4]
    ensures { result ≡ key_words key.now }
{
    let (words, _) = key.as_chunks::<4>();
    array::from_fn(|i| u32::from_be_bytes(words[i]))
}

fn words_of(block: u64) -> (u32, u32)
    ensures { (result.0 ≡ block / 2 ^ 32) × (result.1 ≡ block % 2 ^ 32) }
{
    ((block >> 32) as u32, (block & 0xffff_ffff) as u32)
}

fn block_of(v0: u32, v1: u32) -> u64
    ensures { result ≡ v0 * 2 ^ 32 + v1 }
{
    ((v0 as u64) << 32) + v1 as u64
}

/// XTEA under a key; the words of the key are kept beside it.
// Stays: ghost fields, and no model whose value is the key: `BlockCipher::fitting` is owed at every value, and not every list is a key.
#[derive(Drop)]
pub struct Xtea {
    key: [u8; 16],
    words: [u32; 4],
    ghost whole: { length key ≡ 16 },
    ghost bytes: { (i : ℕ) → slice_index key i < 256 },
    ghost scheduled: { words ≡ key_words key },
}

impl Xtea {
    /// Under the key of zeros.
    pub fn new() -> Xtea
        ensures key_is_zero { result.key ≡ replicate 16 0 }
    {
        Xtea::of([0; 16])
    }

    fn of(key: [u8; 16]) -> Xtea
        ensures { result.key ≡ key }
    {
        let words = key_words(&key);
        Xtea { key, words }
    }

    pub fn set_key(&mut self, key: &[u8; 16])
        ensures key_is_held { self.new.key ≡ key.now }
    {
        *self = Xtea::of(*key);
    }

    pub fn encipher(&self, block: u64) -> u64
        ensures block_is_enciphered { result ≡ enciphered self.now.key block }
    {
        let (mut v0, mut v1) = words_of(block);
        let mut s = 0u32;
        for _ in 0..ROUNDS {
            v0 = v0.wrapping_add(change_by(v1, s, self.words[(s % 4) as usize]));
            s = s.wrapping_add(DELTA);
            v1 = v1.wrapping_add(change_by(v0, s, self.words[((s >> 11) % 4) as usize]));
        }
        block_of(v0, v1)
    }

    pub fn decipher(&self, block: u64) -> u64
        ensures block_is_deciphered { result ≡ deciphered self.now.key block }
    {
        let (mut v0, mut v1) = words_of(block);
        let mut s = LAST_SUM;
        for _ in 0..ROUNDS {
            v1 = v1.wrapping_sub(change_by(v0, s, self.words[((s >> 11) % 4) as usize]));
            s = s.wrapping_sub(DELTA);
            v0 = v0.wrapping_sub(change_by(v1, s, self.words[(s % 4) as usize]));
        }
        block_of(v0, v1)
    }
}

/// Each map undoes the other, for every key and every block.
#[tactic(auto, using(crate::proofs::Undoing::undoing))]
pub fn deciphering_undoes_enciphering()
    ensures undoing { Undoing }
{}
