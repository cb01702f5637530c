//! The state as four columns, each a word, and the rounds on it.

ghost use Rattle.std.specs.Prelude.{◌≡◌, ℕ, ◌+◌, ◌-◌, ◌*◌, ◌/◌, ◌%◌, ◌^◌, ◌<◌};
ghost use Rattle.aes.specs.Aes.{state_of, block_of, sub_bytes, shift_rows, mix_columns, add_round_key, inv_sub_bytes, inv_shift_rows, inv_mix_columns};
ghost use Rattle.aes.specs.Columns.{state};

use crate::{steps, tables};

#[derive(Clone, Copy)]
pub(crate) struct Columns {
    c0: u32,
    c1: u32,
    c2: u32,
    c3: u32,
}

fn column(block: u128, index: u32) -> u32
    requires { index < 4 }
    ensures { result ≡ block / 2 ^ (96 - 32 * index) % 2 ^ 32 }
{
    ((block >> (96 - 32 * index)) & 0xffff_ffff) as u32
}

fn joined(c0: u32, c1: u32, c2: u32, c3: u32) -> u128
    ensures { result ≡ c0 * 2 ^ 96 + c1 * 2 ^ 64 + c2 * 2 ^ 32 + c3 }
{
    ((c0 as u128) << 96) + ((c1 as u128) << 64) + ((c2 as u128) << 32) + c3 as u128
}

impl Columns {
    #[tactic(auto, unfolding(crate::specs::Aes::state_of, crate::specs::Aes::columns))]
    pub(crate) fn from_block(block: u128) -> Columns
        ensures { state result ≡ state_of block }
    {
        Columns {
            c0: column(block, 0),
            c1: column(block, 1),
            c2: column(block, 2),
            c3: column(block, 3),
        }
    }

    #[tactic(auto, unfolding(crate::specs::Aes::block_of))]
    pub(crate) fn block(self) -> u128
        ensures { result ≡ block_of (state self) }
    {
        joined(self.c0, self.c1, self.c2, self.c3)
    }

    /// A round's own key, four words of the schedule: as a schedule by itself it is the key of round 0.
    #[tactic(auto, unfolding(crate::specs::Aes::add_round_key, crate::specs::Aes::columns, crate::specs::Aes::column))]
    pub(crate) fn add_round_key(self, key: &[u32; 4]) -> Columns
        ensures { state result ≡ add_round_key key.now 0 (state self) }
    {
        Columns {
            c0: self.c0 ^ key[0],
            c1: self.c1 ^ key[1],
            c2: self.c2 ^ key[2],
            c3: self.c3 ^ key[3],
        }
    }

    /// What f makes of each column and the three after it, from which ShiftRows takes its bytes.
    fn of_each<F: Fn(u32, u32, u32, u32) -> u32>(self, f: F) -> Columns
        requires { F.IsAlwaysCallable f }
        ensures c0 { F.post f self.c0 self.c1 self.c2 self.c3 result.c0 }
        ensures c1 { F.post f self.c1 self.c2 self.c3 self.c0 result.c1 }
        ensures c2 { F.post f self.c2 self.c3 self.c0 self.c1 result.c2 }
        ensures c3 { F.post f self.c3 self.c0 self.c1 self.c2 result.c3 }
    {
        let Columns { c0, c1, c2, c3 } = self;
        Columns {
            c0: f(c0, c1, c2, c3),
            c1: f(c1, c2, c3, c0),
            c2: f(c2, c3, c0, c1),
            c3: f(c3, c0, c1, c2),
        }
    }

    // Stays: the standard has these four rounds, each of its own steps; what they share is `of_each`.
    pub(crate) fn round(self, key: &[u32; 4]) -> Columns
        ensures { state result ≡ add_round_key key.now 0 (mix_columns (shift_rows (sub_bytes (state self)))) }
    {
        let table = tables::round();
        self.of_each(|a, b, c, d| steps::substitute_and_mix(table, a, b, c, d))
            .add_round_key(key)
    }

    pub(crate) fn last_round(self, key: &[u32; 4]) -> Columns
        ensures { state result ≡ add_round_key key.now 0 (shift_rows (sub_bytes (state self))) }
    {
        let table = tables::substitution();
        self.of_each(|a, b, c, d| steps::substitute(table, a, b, c, d))
            .add_round_key(key)
    }

    /// A round of the equivalent inverse cipher, whose round key comes after InvMixColumns. InvShiftRows takes the bytes from the
    /// same columns in the other order.
    pub(crate) fn inv_round(self, key: &[u32; 4]) -> Columns
        ensures { state result ≡ add_round_key key.now 0 (inv_mix_columns (inv_sub_bytes (inv_shift_rows (state self)))) }
    {
        let table = tables::inv_round();
        self.of_each(|a, b, c, d| steps::substitute_and_mix(table, a, d, c, b))
            .add_round_key(key)
    }

    pub(crate) fn inv_last_round(self, key: &[u32; 4]) -> Columns
        ensures { state result ≡ add_round_key key.now 0 (inv_sub_bytes (inv_shift_rows (state self))) }
    {
        let table = tables::inv_substitution();
        self.of_each(|a, b, c, d| steps::substitute(table, a, d, c, b))
            .add_round_key(key)
    }
}
