//! The examples of FIPS 197.

use crate::{Aes128, schedule};
use std::process::Abort;

/// The key of the appendices A.1 and B.
const KEY: [u8; 16] = *b"\x2b\x7e\x15\x16\x28\xae\xd2\xa6\xab\xf7\x15\x88\x09\xcf\x4f\x3c";

/// The words of its key expansion, in appendix A.1.
const SCHEDULE: [u32; 44] = [
    0x2b7e1516, 0x28aed2a6, 0xabf71588, 0x09cf4f3c, 0xa0fafe17, 0x88542cb1, 0x23a33939, 0x2a6c7605,
    0xf2c295f2, 0x7a96b943, 0x5935807a, 0x7359f67f, 0x3d80477d, 0x4716fe3e, 0x1e237e44, 0x6d7a883b,
    0xef44a541, 0xa8525b7f, 0xb671253b, 0xdb0bad00, 0xd4d1c6f8, 0x7c839d87, 0xcaf2b8bc, 0x11f915bc,
    0x6d88a37a, 0x110b3efd, 0xdbf98641, 0xca0093fd, 0x4e54f70e, 0x5f5fc9f3, 0x84a64fb2, 0x4ea6dc4f,
    0xead27321, 0xb58dbad2, 0x312bf560, 0x7f8d292f, 0xac7766f3, 0x19fadc21, 0x28d12941, 0x575c006e,
    0xd014f9a8, 0xc9ee2589, 0xe13f0cc8, 0xb6630ca6,
];

fn both_ways(rt: &impl Abort, key: &[u8; 16], block: u128, enciphered: u128) {
    let mut aes = Aes128::new();
    aes.set_key(key);
    assert_eq!(rt; aes.encipher(block), enciphered);
    assert_eq!(rt; aes.decipher(enciphered), block);
}

#[test]
fn appendix_a1_key_expansion(rt: HostRuntime) {
    assert_eq!(rt; schedule::expand(&KEY), SCHEDULE);
}

#[test]
fn appendix_b(rt: HostRuntime) {
    both_ways(
        &rt,
        &KEY,
        0x3243f6a8885a308d313198a2e0370734,
        0x3925841d02dc09fbdc118597196a0b32,
    );
}

#[test]
fn appendix_c1(rt: HostRuntime) {
    let key = [0, 1, 2, 3, 4, 5, 6, 7, 8, 9, 10, 11, 12, 13, 14, 15];
    both_ways(
        &rt,
        &key,
        0x00112233445566778899aabbccddeeff,
        0x69c4e0d86a7b0430d8cdb78070b4c55a,
    );
}

#[test]
fn starts_with_the_zero_key(rt: HostRuntime) {
    let aes = Aes128::new();
    assert_eq!(rt; *aes.key(), [0; 16]);
    assert_eq!(rt; aes.encipher(0), 0x66e94bd4ef8a2c3b884cfa59ca342b2e);
}
