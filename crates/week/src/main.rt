//! A newcomer's first week with a storage module: it is made, keyed, written and read, and its key is changed while it is in use.
//!
//! All calls on the volume are made by `runs::perform`, whose contract is the law of volumes.

#![tactic(auto)]

mod calls;
mod show;

use aes::Aes128;
use calls::*;
use ciphers::BlockCipher;
use devices::device::SectorDevice;
use fault_lists::list::FaultList;
use images::Image;
use modes::WideMode;
use runs::perform::perform;
use runs::script::Entry;
use std::alloc::{AllocError, Global};
use std::io;
use tet::Tet;
use volumes::volume::Volume;

/// How many bytes a sector of the module has, and how many sectors there are.
const SIZE: usize = 512;

const COUNT: usize = 6;

const FIRST_KEY: [u8; 32] = *b"one key of bytes and another key";

const SECOND_KEY: [u8; 32] = *b"the key after that and its other";

/// The module is closed: nothing but its open key helps.
fn monday(heap: Global) -> Result<Vec<Entry>, AllocError> {
    Ok(vec![in heap;
        report(),
        read(heap, 2, SIZE)?,
        open(heap, b"too short a key")?,
        open(heap, &FIRST_KEY)?,
        report(),
    ]?)
}

/// Each sector is read and written by itself.
fn tuesday(heap: Global) -> Result<Vec<Entry>, AllocError> {
    Ok(vec![in heap;
        write(heap, 2, SIZE, b"Tuesday's report")?,
        read(heap, 2, SIZE)?,
        write(heap, 4, SIZE, b"not here: dead")?,
        write(heap, 6, SIZE, b"not here: past the end")?,
        read(heap, 2, 100)?,
    ]?)
}

/// The key is changed for the first two sectors, and then the machine has other work.
fn wednesday(heap: Global) -> Result<Vec<Entry>, AllocError> {
    Ok(vec![in heap;
        step(),
        begin(heap, &SECOND_KEY)?,
        step(),
        step(),
        report(),
        begin(heap, &FIRST_KEY)?,
    ]?)
}

/// Reads and writes below the mark, at it and above it.
fn thursday(heap: Global) -> Result<Vec<Entry>, AllocError> {
    Ok(vec![in heap;
        write(heap, 1, SIZE, b"below the mark")?,
        read(heap, 1, SIZE)?,
        read(heap, 2, SIZE)?,
        write(heap, 3, SIZE, b"above the mark")?,
        read(heap, 3, SIZE)?,
    ]?)
}

/// The other four sectors, the dead one among them, and one step too many.
fn friday(heap: Global) -> Result<Vec<Entry>, AllocError> {
    Ok(vec![in heap;
        step(),
        step(),
        step(),
        step(),
        report(),
        step(),
        read(heap, 1, SIZE)?,
        read(heap, 2, SIZE)?,
        read(heap, 3, SIZE)?,
    ]?)
}

fn day<D: SectorDevice, M: WideMode>(
    rt: &impl Print,
    name: &str,
    volume: &mut Volume<D, M>,
    script: Result<Vec<Entry>, AllocError>,
) -> io::Result<()> {
    println!(rt; "{name}")?;
    let mut script = script?;
    perform(volume, script.as_mut_slice());
    for entry in script.iter() {
        show::entry(rt, entry)?;
    }
    Ok(())
}

fn week<D: SectorDevice + Drop>(rt: &impl Print, heap: Global, device: D) -> io::Result<()> {
    let mut volume = Volume::new(device, Tet::<Aes128>::new(), Tet::<Aes128>::new());
    day(
        rt,
        "Monday, the module gets its key",
        &mut volume,
        monday(heap),
    )?;
    day(rt, "Tuesday, it is used", &mut volume, tuesday(heap))?;
    day(
        rt,
        "Wednesday, its key is to be changed",
        &mut volume,
        wednesday(heap),
    )?;
    day(
        rt,
        "Thursday, it is used all the same",
        &mut volume,
        thursday(heap),
    )?;
    day(
        rt,
        "Friday, the change is finished",
        &mut volume,
        friday(heap),
    )
}

fn main(rt: HostRuntime) -> io::Result<()> {
    println!(rt; "A module of {COUNT} sectors of {SIZE} bytes")?;
    let mut module = [0; SIZE * COUNT];
    {
        let mut faults = FaultList::new(Image::new(&mut module, 512));
        match faults.enter(4) {
            Ok(()) => println!(rt; "  sector 4 is dead, and listed as such")?,
            Err(refusal) => println!(rt; "  sector 4 is not listed: {refusal}")?,
        }
        week(&rt, rt.alloc(), faults)?;
    }
    println!(rt; "What the module holds at the end of the week")?;
    for (sector, bytes) in module.chunks_exact(SIZE).enumerate() {
        show::stored(&rt, sector, bytes)?;
    }
    Ok(())
}
