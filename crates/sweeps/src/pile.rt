//! A volume on a window of a fault list of a volume on an image. The lower one is left in the middle of a key change; the key of
//! the upper one is then changed over it, and passes over a dead sector.

use ciphers::BlockCipher;
use ciphers::mask::Mask;
use devices::device::SectorDevice;
use devices::fault::Fault;
use fault_lists::list::FaultList;
use heh::Heh;
use images::Image;
use layers::window::Window;
use modes::WideMode;
use std::io;
use tet::Tet;
use volumes::fault::VolumeFault;
use volumes::volume::Volume;

// Stays: two arms in each program that prints an answer; a crate for them alone would be longer.
fn called(rt: &impl Print, what: &str, answer: Result<(), VolumeFault>) -> io::Result<()> {
    match answer {
        Ok(()) => println!(rt; "  {what}: done"),
        Err(fault) => println!(rt; "  {what}: refused {fault}"),
    }
}

fn show<D: SectorDevice>(rt: &impl Print, device: &mut D) -> io::Result<()> {
    for sector in 0..device.count() {
        let mut buffer = [0; 2];
        match device.read(sector, &mut buffer) {
            Ok(()) => println!(rt; "  sector {sector} reads {buffer:?}")?,
            Err(fault) => println!(rt; "  sector {sector}: refused {fault}")?,
        }
    }
    Ok(())
}

/// Opens a volume, writes each sector and changes its key over a part of it.
fn half_way<D: SectorDevice, M: WideMode>(
    rt: &impl Print,
    volume: &mut Volume<D, M>,
    keys: (&[u8], &[u8]),
    steps: u32,
) -> io::Result<()> {
    called(rt, "open", volume.open(keys.0))?;
    for sector in 0..volume.count() {
        let byte = (sector & 0xff) as u8;
        let _ = volume.write(sector, &[byte, 100]);
    }
    called(rt, "begin", volume.begin(keys.1))?;
    for _ in 0..steps {
        called(rt, "step", volume.step())?;
    }
    let phase = volume.report();
    println!(rt; "  report {} {}", phase.number(), phase.mark())?;
    show(rt, volume)
}

/// The lower volume, half swept, with a dead sector listed above it.
fn lower<D: SectorDevice + Drop>(rt: &impl Print, device: D) -> io::Result<()> {
    let current: Tet<Mask<u8>> = Tet::new();
    let next: Tet<Mask<u8>> = Tet::new();
    let mut volume = Volume::new(device, current, next);
    println!(rt; "the lower volume")?;
    half_way(rt, &mut volume, (&[1, 16], &[2, 16]), 3)?;
    let mut faults = FaultList::new(volume);
    let entered = faults.enter(3).is_ok();
    println!(rt; "sector 3 is listed: {entered}")?;
    upper(rt, Window::new(faults, 1, 4))
}

fn upper<D: SectorDevice + Drop>(rt: &impl Print, device: D) -> io::Result<()> {
    let current: Heh<Mask<u8>> = Heh::new();
    let next: Heh<Mask<u8>> = Heh::new();
    let mut volume = Volume::new(device, current, next);
    println!(rt; "the upper volume")?;
    half_way(rt, &mut volume, (&[7], &[9]), 3)?;
    println!(rt; "its change is finished")?;
    called(rt, "step", volume.step())?;
    called(rt, "step", volume.step())?;
    show(rt, &mut volume)
}

pub fn sweep_both(rt: &impl Print) -> io::Result<()> {
    println!(rt; "a volume on a window of a fault list of a volume on an image")?;
    let mut bytes = [0; 11];
    lower(rt, Image::new(&mut bytes, 2))?;
    println!(rt; "the image holds {bytes:?}")
}
