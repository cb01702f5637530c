//! A volume of a dozen sectors of 520 bytes under TET with AES-128. Its key change is stopped at each mark, from none to all
//! sectors; then the sectors below the mark, at it and above it are read and written, and the change is finished.

use aes::Aes128;
use ciphers::BlockCipher;
use devices::device::SectorDevice;
use images::Image;
use modes::WideMode;
use std::io;
use tet::Tet;
use volumes::phase::Phase;
use volumes::volume::Volume;

const SIZE: usize = 520;

const COUNT: u32 = 12;

const BYTES: usize = SIZE * COUNT as usize;

const OLD_KEY: [u8; 32] = *b"one key of bytes and another key";

const NEW_KEY: [u8; 32] = *b"the key after that and its other";

/// What is written to a sector: its own number and a counter.
fn written(sector: u32, version: u32) -> [u8; SIZE] {
    let mut bytes = [0; SIZE];
    for (i, byte) in bytes.iter_mut().enumerate() {
        *byte = ((i + sector as usize * 31 + version as usize * 7) % 251) as u8;
    }
    bytes
}

/// Does the sector read as it was written?
// Stays: device, sector and version are what each check is about; a struct of the three would be made anew for each check.
fn reads<D: SectorDevice>(device: &mut D, sector: u32, version: u32) -> bool {
    let mut buffer = [0; SIZE];
    device.read(sector, &mut buffer).is_ok() && buffer == written(sector, version)
}

fn writes<D: SectorDevice>(device: &mut D, sector: u32, version: u32) -> bool {
    device.write(sector, &written(sector, version)).is_ok()
}

/// Writes every sector's first version.
fn write_all<D: SectorDevice>(device: &mut D) -> usize {
    (0..COUNT)
        .filter(|sector| writes(device, *sector, 1))
        .count()
}

/// Reads the sector's first version, writes and reads its second; a sector that is not there is left.
fn use_sector<D: SectorDevice>(device: &mut D, sector: Option<u32>) -> &'static str {
    match sector {
        Some(number) if number < COUNT => {
            if reads(device, number, 1) && writes(device, number, 2) && reads(device, number, 2) {
                "well"
            } else {
                "WRONG"
            }
        }
        _ => "none",
    }
}

/// The version that a sector has at the end: those next to the mark have their second.
fn last_version(sector: u32, mark: u32) -> u32 {
    if sector.abs_diff(mark) <= 1 { 2 } else { 1 }
}

/// How many sectors read as their last version.
// Stays: a function of both chains would take the test as a closure, and be `filter` once more.
fn count_right<D: SectorDevice>(device: &mut D, mark: u32) -> usize {
    (0..COUNT)
        .filter(|sector| reads(device, *sector, last_version(*sector, mark)))
        .count()
}

/// How many of so many steps are accepted.
fn steps<D: SectorDevice, M: WideMode>(volume: &mut Volume<D, M>, count: u32) -> usize {
    (0..count).filter(|_| volume.step().is_ok()).count()
}

fn told(phase: Phase) -> (u8, u32) {
    (phase.number(), phase.mark())
}

/// Does a mode decipher what a device holds to a version of the sector?
fn deciphers<D: SectorDevice, M: WideMode>(
    device: &mut D,
    mode: &M,
    sector: u32,
    version: u32,
) -> bool {
    let mut buffer = [0; SIZE];
    device.read(sector, &mut buffer).is_ok()
        && mode.decipher(sector, &mut buffer).is_ok()
        && buffer == written(sector, version)
}

/// How many sectors of a device a mode deciphers to their last version.
// Stays: as `count_right`, with another test.
fn count_deciphered<D: SectorDevice, M: WideMode>(device: &mut D, mode: &M, mark: u32) -> usize {
    (0..COUNT)
        .filter(|sector| deciphers(device, mode, *sector, last_version(*sector, mark)))
        .count()
}

/// The sectors of a swept image that the new key deciphers by itself, each with its own number.
fn stored_right(image: &mut [u8], mark: u32) -> usize {
    let mut mode: Tet<Aes128> = Tet::new();
    if mode.key(&NEW_KEY, SIZE).is_err() {
        return 0;
    }
    count_deciphered(&mut Image::new(image, 520), &mode, mark)
}

fn stop_at(rt: &impl Print, mark: u32) -> io::Result<()> {
    let mut image = [0; BYTES];
    {
        let current: Tet<Aes128> = Tet::new();
        let next: Tet<Aes128> = Tet::new();
        let mut volume = Volume::new(Image::new(&mut image, 520), current, next);
        let opened = volume.open(&OLD_KEY).is_ok();
        let written = write_all(&mut volume);
        let begun = volume.begin(&NEW_KEY).is_ok();
        let stepped = steps(&mut volume, mark);
        let (phase, at) = told(volume.report());
        println!(rt;
            "stopped after {mark}: opened {opened}, {written} written, begun {begun}, {stepped} stepped, report {phase} {at}"
        )?;
        let below = use_sector(&mut volume, mark.checked_sub(1));
        let there = use_sector(&mut volume, Some(mark));
        let above = use_sector(&mut volume, mark.checked_add(1));
        let more = steps(&mut volume, COUNT + 1);
        let (phase, at) = told(volume.report());
        let right = count_right(&mut volume, mark);
        println!(rt;
            "  below {below}, at {there}, above {above}, {more} stepped more, report {phase} {at}, {right} read right"
        )?;
    }
    let stored = stored_right(&mut image, mark);
    println!(rt; "  {stored} stored under the new key")
}

pub fn all(rt: &impl Print) -> io::Result<()> {
    for mark in 0..COUNT + 1 {
        stop_at(rt, mark)?;
    }
    Ok(())
}
