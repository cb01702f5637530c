//! How fast modes are keyed, sectors are enciphered and deciphered, and a volume's key is changed.
//!
//! Without an argument it measures with the runtime's clock, and prints a line for each figure: the mode, the size of a sector, what was
//! done, the best figure of several runs and its unit. With an argument, as `once`, it does each thing once and prints that.

#![tactic(auto)]

mod plan;
mod subject;

use aes::Aes128;
use ciphers::BlockCipher;
use heh::Heh;
use plan::Plan;
use std::{env, io};
use subject::{Keys, Subject};
use tet::Tet;
use xtea::Xtea;

/// The sizes of a sector.
const SIZES: [usize; 2] = [512, 4096];

fn all(rt: &HostRuntime, plan: Plan, size: usize) -> io::Result<()> {
    let two = Keys {
        old: b"one key of bytes and another key",
        new: b"the key after that and its other",
    };
    let one = Keys {
        old: b"one key of bytes",
        new: b"the key after th",
    };
    Subject::<Tet<Aes128>>::new("tet-aes-128", Tet::new(), Tet::new(), two).run(rt, plan, size)?;
    Subject::<Tet<Xtea>>::new("tet-xtea", Tet::new(), Tet::new(), two).run(rt, plan, size)?;
    Subject::<Heh<Aes128>>::new("heh-aes-128", Heh::new(), Heh::new(), one).run(rt, plan, size)?;
    Subject::<Heh<Xtea>>::new("heh-xtea", Heh::new(), Heh::new(), one).run(rt, plan, size)
}

fn main(rt: HostRuntime) -> io::Result<()> {
    let mut words = env::args(&rt)?;
    let _ = words.next();
    let plan = match words.next() {
        None => Plan::Measured,
        Some(_) => Plan::Once,
    };
    for size in SIZES {
        all(&rt, plan, size)?;
    }
    Ok(())
}
