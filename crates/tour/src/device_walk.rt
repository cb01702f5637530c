//! Two boards of a module as one device, with a dead sector.

use crate::answers;
use devices::device::SectorDevice;
use fault_lists::list::FaultList;
use images::Image;
use layers::join::Join;
use layers::window::Window;
use std::io;

fn use_device<D: SectorDevice>(rt: &impl Print, device: &mut D) -> io::Result<()> {
    let count = device.count();
    let size = device.size();
    println!(rt; "  the pile has {count} sectors of {size} bytes")?;
    for sector in 0..4u32 {
        print!(rt; "  write sector {sector}: ")?;
        answers::show(rt, device.write(sector, b"data"))?;
    }
    let mut buffer = [0; 4];
    print!(rt; "  read sector 0: ")?;
    answers::show(rt, device.read(0, &mut buffer))?;
    println!(rt; "  and the buffer holds {buffer:?}")?;
    print!(rt; "  read into 3 bytes, sector 0: ")?;
    answers::show(rt, device.read(0, &mut buffer[..3]))
}

pub fn walk(rt: &impl Print) -> io::Result<()> {
    println!(rt; "A window on a fault list on two boards end to end")?;
    let mut left = [0; 9];
    let mut right = [0; 8];
    {
        let boards = Join::new(Image::new(&mut left, 4), Image::new(&mut right, 4));
        let mut faults = FaultList::new(boards);
        match faults.enter(2) {
            Ok(()) => println!(rt; "  sector 2 of the boards is entered as dead")?,
            Err(refusal) => println!(rt; "  sector 2 is not entered: {refusal}")?,
        }
        let mut window = Window::new(faults, 1, 3);
        use_device(rt, &mut window)?;
    }
    println!(rt; "  left board  {left:?}")?;
    println!(rt; "  right board {right:?}")
}
