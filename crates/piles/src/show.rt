use devices::device::SectorDevice;
use fault_lists::list::FaultList;
use std::fmt::Display;
use std::io;

pub fn answer<E: Display + Drop>(
    rt: &HostRuntime,
    call: &str,
    sector: u32,
    answer: Result<(), E>,
) -> io::Result<()> {
    match answer {
        Ok(()) => println!(rt; "  {call} {sector}: done"),
        Err(fault) => println!(rt; "  {call} {sector}: refused {fault}"),
    }
}

pub fn read<D: SectorDevice>(
    rt: &HostRuntime,
    device: &mut D,
    sector: u32,
    buffer: &mut [u8],
) -> io::Result<()> {
    let done = device.read(sector, buffer);
    answer(rt, "read", sector, done)?;
    println!(rt; "    {buffer:?}")
}

pub fn write<D: SectorDevice>(
    rt: &HostRuntime,
    device: &mut D,
    sector: u32,
    buffer: &[u8],
) -> io::Result<()> {
    let done = device.write(sector, buffer);
    answer(rt, "write", sector, done)
}

pub fn outline<D: SectorDevice>(rt: &HostRuntime, name: &str, device: &D) -> io::Result<()> {
    let size = device.size();
    let count = device.count();
    println!(rt; "{name}: {count} of {size}")
}

pub fn enter<D: SectorDevice>(
    rt: &HostRuntime,
    faults: &mut FaultList<D>,
    sector: u32,
) -> io::Result<()> {
    answer(rt, "enter", sector, faults.enter(sector))
}

pub fn list<D: SectorDevice>(
    rt: &HostRuntime,
    faults: &FaultList<D>,
    places: &mut [u32],
) -> io::Result<()> {
    match faults.list(places) {
        Ok(count) => println!(rt; "  list: {count}")?,
        Err(refusal) => println!(rt; "  list: refused {refusal}")?,
    }
    println!(rt; "    {places:?}")
}
