//! The hash sum of a sector, and the power sum that must have an inverse.

use crate::counting;
use rings::{BlockRing, sums};
use std::io;

const SECTOR_LENGTH: usize = 512;

const BLOCK_COUNT: usize = 32;

/// A hash value as a key might give it.
const TAU: u128 = 0x66e94bd4ef8a2c3b884cfa59ca342b2e;

/// A cube root of 1: its powers add up to 0 three by three, and 1 + τ + .. + τ^32 has 33 of them.
const CUBE_ROOT: u128 = 0x295ac0b1f4731af9676aac9fa4b20b09;

fn show_inverse(rt: &impl Print, sigma: u128) -> io::Result<()> {
    match sigma.inverse() {
        Some(inverse) => {
            let product = sigma.multiply(inverse);
            println!(rt; "  1/σ                   {inverse:032x}")?;
            println!(rt; "  σ·(1/σ)               {product:032x}")
        }
        None => println!(rt; "  1/σ                   none: no block times σ is 1"),
    }
}

fn show_power_sum(rt: &impl Print, tau: u128) -> io::Result<()> {
    let sigma = sums::power_sum(tau, BLOCK_COUNT);
    println!(rt; "  τ                     {tau:032x}")?;
    println!(rt; "  σ = 1 + τ + .. + τ^32 {sigma:032x}")?;
    show_inverse(rt, sigma)
}

pub fn walk(rt: &impl Print) -> io::Result<()> {
    let mut sector = [0; SECTOR_LENGTH];
    counting::fill(&mut sector);
    let first = u128::from_bytes(&sector[0..16]);
    let last = u128::from_bytes(&sector[496..512]);
    println!(rt; "A sector of 512 bytes as 32 blocks of the ring of 16 bytes")?;
    println!(rt; "  B_1                   {first:032x}")?;
    println!(rt; "  B_32                  {last:032x}")?;
    let sum = sums::hash_sum(TAU, &sector);
    println!(rt; "Its hash sum under a hash value τ, and the power sum σ of as many powers")?;
    println!(rt; "  H(τ; B_1..B_32)       {sum:032x}")?;
    show_power_sum(rt, TAU)?;
    println!(rt; "The same with a cube root of 1 for τ")?;
    show_power_sum(rt, CUBE_ROOT)
}
