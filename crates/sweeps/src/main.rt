//! Key changes that are stopped at every sector, and the key changes of two volumes of which one lies on the other.

#![tactic(auto)]

mod pile;
mod stops;

use std::io;

fn main(rt: HostRuntime) -> io::Result<()> {
    stops::all(&rt)?;
    pile::sweep_both(&rt)
}
