//! The tables that the calls read, each with its rule.

ghost use Rattle.aes.specs.Aes.{sbox, inv_sbox};
ghost use Rattle.aes.specs.Columns.{round_word, inv_round_word};
ghost use Rattle.aes.specs.Laws.{Tabulates};

use crate::inv_round_table::INV_ROUND;
use crate::inv_sbox::INV_SBOX;
use crate::round_table::ROUND;
use crate::sbox::SBOX;

/// The inverse in the ring of one byte, with 00 kept, and then the affine map.
pub fn substitution() -> &'static [u8; 256]
    ensures { Tabulates 256 sbox result.now }
{
    &SBOX
}

/// The inverse of the affine map, and then the inverse in the ring of one byte.
pub fn inv_substitution() -> &'static [u8; 256]
    ensures { Tabulates 256 inv_sbox result.now }
{
    &INV_SBOX
}

/// SubBytes and MixColumns of the columns whose one byte, the first, is x.
pub fn round() -> &'static [u32; 256]
    ensures { Tabulates 256 round_word result.now }
{
    &ROUND
}

/// InvSubBytes and InvMixColumns of the columns whose one byte, the first, is x.
pub fn inv_round() -> &'static [u32; 256]
    ensures { Tabulates 256 inv_round_word result.now }
{
    &INV_ROUND
}
