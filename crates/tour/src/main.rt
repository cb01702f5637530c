//! A newcomer's walk through what stands: each step does one real thing and prints what it did.

#![tactic(auto)]

use std::io;

mod answers;
mod cipher_walk;
mod counting;
mod device_walk;
mod mode_walk;
mod ring_walk;

fn walk(rt: &impl Print) -> io::Result<()> {
    ring_walk::walk(rt)?;
    cipher_walk::walk(rt)?;
    mode_walk::walk(rt)?;
    device_walk::walk(rt)
}

fn main(rt: HostRuntime) -> io::Result<()> {
    walk(&rt)
}
