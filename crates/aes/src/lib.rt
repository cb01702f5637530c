//! AES-128 as FIPS 197 defines it, on blocks that are the big-endian numbers of their 16 bytes.
//!
//! `specs/Aes.antt` is the standard, step by step. The code holds the state as four columns (`columns`) and makes a
//! round by one table for each direction (`tables`, `steps`), with a second schedule for the way back (`schedule`).

#![tactic(auto)]

ghost use Rattle.std.specs.Prelude.{◌≡◌, ℕ, ◌<◌, length, replicate, slice_index};
ghost use Rattle.aes.specs.Aes.{key_expansion, encipher, decipher};
ghost use Rattle.aes.specs.Columns.{Unmixed};
ghost use Rattle.aes.specs.Laws.{Substitution, Undoing};

mod columns;
mod inv_round_table;
mod inv_sbox;
mod round_table;
mod sbox;
mod schedule;
mod steps;
pub mod tables;
#[cfg(test)]
mod tests;

use columns::Columns;

/// AES-128 with the key that it holds, at first 16 zeros.
// Stays: ghost fields, and no model whose value is the key: `BlockCipher::fitting` is owed at every value, and not every list is a key.
#[derive(Drop)]
pub struct Aes128 {
    key: [u8; 16],
    w: [u32; 44],
    dw: [u32; 44],
    ghost whole: { length key ≡ 16 },
    ghost bytes: { (i : ℕ) → slice_index key i < 256 },
    ghost expanded: { w ≡ key_expansion key },
    ghost unmixed: { Unmixed w dw },
}

impl Aes128 {
    pub fn new() -> Aes128
        ensures { result.key ≡ replicate 16 0 }
    {
        Aes128::of([0; 16])
    }

    fn of(key: [u8; 16]) -> Aes128
        ensures { result.key ≡ key }
    {
        let w = schedule::expand(&key);
        let dw = schedule::unmix(&w);
        Aes128 { key, w, dw }
    }

    pub fn set_key(&mut self, key: &[u8; 16])
        ensures key_is_held { self.new.key ≡ key.now }
    {
        *self = Aes128::of(*key);
    }

    pub fn key(&self) -> &[u8; 16]
        ensures { result.now ≡ self.now.key }
    {
        &self.key
    }

    #[tactic(auto, unfolding(crate::specs::Aes::rounds, crate::specs::Aes::cipher, crate::specs::Aes::encipher), using(crate::proofs::Rounds::round_key))]
    pub fn encipher(&self, block: u128) -> u128
        ensures { result ≡ encipher self.now.key block }
    {
        let (keys, _) = self.w.as_chunks::<4>();
        let mut columns = Columns::from_block(block).add_round_key(&keys[0]);
        for key in &keys[1..10] {
            columns = columns.round(key);
        }
        columns.last_round(&keys[10]).block()
    }

    // Stays: the standard's two ciphers take other steps in another order.
    #[tactic(auto, unfolding(crate::specs::Aes::inv_rounds, crate::specs::Aes::inv_cipher, crate::specs::Aes::decipher), using(crate::proofs::Rounds::round_key))]
    pub fn decipher(&self, block: u128) -> u128
        ensures { result ≡ decipher self.now.key block }
    {
        let (keys, _) = self.w.as_chunks::<4>();
        let (inv_keys, _) = self.dw.as_chunks::<4>();
        let mut columns = Columns::from_block(block).add_round_key(&keys[10]);
        for key in inv_keys[1..10].iter().rev() {
            columns = columns.inv_round(key);
        }
        columns.inv_last_round(&keys[0]).block()
    }
}

/// The substitution of a byte takes the inverse of every byte but 00, and its reverse undoes it.
#[tactic(auto, using(crate::proofs::Boxes::substitution))]
pub fn substitution_is_undone()
    ensures substitution { Substitution }
{}

/// For every key, each of the two maps undoes the other, and both keep blocks blocks.
#[tactic(auto, using(crate::proofs::Blocks::undoing))]
pub fn enciphering_is_undone()
    ensures undoing { Undoing }
{}
