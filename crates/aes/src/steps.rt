//! The steps on single words: a column of the state, or a word of the schedule.

ghost use Rattle.std.specs.Prelude.{◌≡◌, ℕ, ◌<◌, slice_index};
ghost use Rattle.aes.specs.Aes.{byte, sub_word, inv_mix_column};
ghost use Rattle.aes.specs.Columns.{substituted, mixed};

use crate::tables;

#[tactic(auto, unfolding(crate::specs::Aes::byte))]
fn byte(w: u32, row: u32) -> u8
    requires { row < 4 }
    ensures { result ≡ byte row w }
{
    ((w >> (24 - 8 * row)) & 0xff) as u8
}

/// A column after the table's substitution of bytes, from the columns that its bytes come from.
#[tactic(auto, unfolding(crate::specs::Aes::word, crate::specs::Columns::substituted))]
pub(crate) fn substitute(table: &[u8; 256], a: u32, b: u32, c: u32, d: u32) -> u32
    ensures { result ≡ substituted (slice_index table.now) a b c d }
{
    u32::from_be_bytes([
        table[byte(a, 0) as usize],
        table[byte(b, 1) as usize],
        table[byte(c, 2) as usize],
        table[byte(d, 3) as usize],
    ])
}

/// A column after the substitution and the mixing of columns that a round table has, from the columns that its bytes come from.
#[tactic(auto, unfolding(crate::specs::Columns::mixed))]
pub(crate) fn substitute_and_mix(table: &[u32; 256], a: u32, b: u32, c: u32, d: u32) -> u32
    ensures { result ≡ mixed (slice_index table.now) a b c d }
{
    let (a, b, c, d) = (
        table[byte(a, 0) as usize],
        table[byte(b, 1) as usize],
        table[byte(c, 2) as usize],
        table[byte(d, 3) as usize],
    );
    a ^ b.rotate_right(8) ^ c.rotate_right(16) ^ d.rotate_right(24)
}

#[tactic(auto, unfolding(crate::specs::Aes::sub_word, crate::specs::Columns::substituted), using(crate::proofs::Rounds::substituted_by))]
pub(crate) fn sub_word(w: u32) -> u32
    ensures { result ≡ sub_word w }
{
    substitute(tables::substitution(), w, w, w, w)
}

/// InvMixColumns of one column: a round of the way back whose InvSubBytes is undone before it.
#[tactic(auto, using(crate::proofs::Rounds::unmixed_by))]
pub(crate) fn inv_mix_column(w: u32) -> u32
    ensures { result ≡ inv_mix_column w }
{
    let s = sub_word(w);
    substitute_and_mix(tables::inv_round(), s, s, s, s)
}
