ghost use Rattle.std.specs.Prelude.{◌≡◌, ◌<◌, [], ◌∷◌, IfOk, IfErr, IsSome, vec_items, Some};
ghost use Rattle.std.specs.Char.{is_ascii_hexdigit};
ghost use Rattle.std.specs.List.{list_all};
ghost use Rattle.std.specs.Option.{option_map};
ghost use Rattle.texts.specs.Hexadecimal.{bytes_of, digit_of, written};

use hex::FromHexError;
use std::alloc::{AllocError, Global};
use std::fmt;

/// Is each byte of a word a hexadecimal digit?
fn is_hexadecimal(word: &[u8]) -> bool
    ensures { result ≡ list_all is_ascii_hexdigit word.now }
{
    // Each byte is looked at, whatever came before, so that many are looked at at once.
    let mut all = true;
    for c in word {
        all = all & c.is_ascii_hexdigit();
    }
    all
}

/// The bytes that a word stands for. A word that stands for none takes no memory.
#[tactic(auto, using(crate::proofs::Pairs::undashed, crate::proofs::Pairs::refused, crate::proofs::Pairs::stray, crate::proofs::Pairs::digits))]
pub fn bytes(heap: Global, word: &[u8]) -> Result<Option<Vec<u8>>, AllocError>
    ensures bytes_are_read { IfOk result (λ o. option_map vec_items o ≡ bytes_of word.now) }
    ensures only_bytes_take_memory { IfErr result (λ e. IsSome (bytes_of word.now)) }
{
    if word == b"-".as_slice() {
        return Ok(Some(Vec::new(heap)));
    }
    if !is_hexadecimal(word) {
        return Ok(None);
    }
    match hex::decode(heap, word) {
        Ok(bytes) => Ok(Some(bytes)),
        // Stays: with the two patterns in one match, the proof did not close.
        Err(fault) => match fault {
            FromHexError::OutOfMemory => Err(AllocError),
            _ => Ok(None),
        },
    }
}

/// A digit of a value below 16.
fn digit(value: u8) -> &'static str
    requires { value < 16 }
    ensures { result.now ≡ digit_of value ∷ [] }
{
    match value {
        0 => "0",
        1 => "1",
        2 => "2",
        3 => "3",
        4 => "4",
        5 => "5",
        6 => "6",
        7 => "7",
        8 => "8",
        9 => "9",
        10 => "a",
        11 => "b",
        12 => "c",
        13 => "d",
        14 => "e",
        _ => "f",
    }
}

/// Bytes as they are written.
#[derive(Clone, Copy)]
pub struct Written<'a>(pub &'a [u8]);

impl fmt::Display for Written<'_> {
    ghost output = { λ w. Some (written w.0.now) };

    fn fmt<W: fmt::Write>(&self, f: &mut fmt::Formatter<W>) -> fmt::Result {
        let bytes = self.0;
        if bytes.is_empty() {
            return write!(f, "-");
        }
        for &byte in bytes {
            f.write_str(digit(byte / 16))?;
            f.write_str(digit(byte % 16))?;
        }
        Ok(())
    }
}
