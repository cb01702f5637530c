//! Sectors of 512 and 520 bytes enciphered and brought back by each wide mode.

use crate::{answers, counting};
use aes::Aes128;
use ciphers::BlockCipher;
use heh::Heh;
use modes::WideMode;
use std::io;
use tet::Tet;
use xtea::Xtea;

/// Keys are taken from the front of these bytes.
const KEY: [u8; 32] = *b"one key of bytes and another key";

/// The sector's number on the device.
const NUMBER: u32 = 7;

fn show_ends(rt: &impl Print, what: &str, sector: &[u8]) -> io::Result<()> {
    print!(rt; "  {what} ")?;
    for byte in sector.iter().take(12) {
        print!(rt; "{byte:02x}")?;
    }
    print!(rt; " .. ")?;
    for byte in sector.iter().skip(sector.len().saturating_sub(12)) {
        print!(rt; "{byte:02x}")?;
    }
    println!(rt; "")
}

fn show_mode<M: WideMode>(
    rt: &impl Print,
    name: &str,
    mut mode: M,
    key: &[u8],
    sector: &mut [u8],
) -> io::Result<()> {
    let size = sector.len();
    println!(rt; "A sector of {size} bytes under {name}")?;
    print!(rt; "  encipher while blank: ")?;
    answers::show(rt, mode.encipher(NUMBER, sector))?;
    print!(rt; "  key: ")?;
    answers::show(rt, mode.key(key, size))?;
    counting::fill(sector);
    show_ends(rt, "plain     ", sector)?;
    print!(rt; "  encipher: ")?;
    answers::show(rt, mode.encipher(NUMBER, sector))?;
    show_ends(rt, "enciphered", sector)?;
    print!(rt; "  decipher: ")?;
    answers::show(rt, mode.decipher(NUMBER, sector))?;
    show_ends(rt, "deciphered", sector)
}

pub fn walk(rt: &impl Print) -> io::Result<()> {
    let tet = Tet::<Aes128>::new;
    let heh = Heh::<Aes128>::new;
    show_mode(rt, "TET with AES-128", tet(), &KEY, &mut [0; 512])?;
    show_mode(rt, "TET with AES-128", tet(), &KEY, &mut [0; 520])?;
    show_mode(rt, "HEH with AES-128", heh(), &KEY[..16], &mut [0; 512])?;
    show_mode(
        rt,
        "HEH with XTEA",
        Heh::<Xtea>::new(),
        &KEY[..16],
        &mut [0; 520],
    )?;
    show_mode(
        rt,
        "HEH with AES-128, which takes whole blocks alone",
        heh(),
        &KEY[..16],
        &mut [0; 520],
    )
}
