//! One block enciphered and brought back by each cipher.

use aes::Aes128;
use ciphers::BlockCipher;
use ciphers::mask::Mask;
use rings::BlockRing;
use std::io;
use xtea::Xtea;

/// Keys are taken from the front of these bytes.
const KEY: [u8; 16] = *b"one key of bytes";

/// Blocks are taken from the end of these.
const TEXT: [u8; 16] = *b"a block of bytes";

fn show_block<R: BlockRing>(rt: &impl Print, what: &str, block: R) -> io::Result<()> {
    print!(rt; "  {what} ")?;
    for place in (0..R::width()).rev() {
        let byte = block.byte(place);
        print!(rt; "{byte:02x}")?;
    }
    println!(rt; "")
}

fn show_cipher<C: BlockCipher>(rt: &impl Print, name: &str) -> io::Result<()> {
    println!(rt; "One block under {name}")?;
    let mut cipher = C::new();
    if let Some(key) = KEY.get(..C::key_length()) {
        if let Err(fault) = cipher.set_key(key) {
            return println!(rt; "  the key is refused with {fault}");
        }
    }
    let mut block = C::Ring::from_bytes(&TEXT);
    show_block(rt, "plain     ", block)?;
    cipher.encipher(&mut block);
    show_block(rt, "enciphered", block)?;
    cipher.decipher(&mut block);
    show_block(rt, "deciphered", block)?;
    match cipher.set_key(&[]) {
        Ok(()) => println!(rt; "  a key of no bytes is taken"),
        Err(fault) => println!(rt; "  a key of no bytes is refused with {fault}"),
    }
}

pub fn walk(rt: &impl Print) -> io::Result<()> {
    show_cipher::<Aes128>(rt, "AES-128")?;
    show_cipher::<Xtea>(rt, "XTEA")?;
    show_cipher::<Mask<u8>>(rt, "the mask of 1 byte")?;
    show_cipher::<Mask<u64>>(rt, "the mask of 8 bytes")?;
    show_cipher::<Mask<u128>>(rt, "the mask of 16 bytes")
}
