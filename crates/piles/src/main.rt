//! Piles of devices, and what each call of them answers and leaves.

#![tactic(auto)]

mod broken;
mod loans;
mod show;

use broken::Broken;
use devices::device::SectorDevice;
use devices::fault::{Fault, Reason};
use fault_lists::list::FaultList;
use images::Image;
use layers::join::Join;
use layers::window::Window;
use show::{enter, list, outline, read, write};
use std::io;

/// A window on a window on a fault list on a join of two images: five deep. Both images have a
/// byte left over, which must stay.
fn five_deep(rt: &HostRuntime) -> io::Result<()> {
    let mut left = [10, 11, 12, 13, 14, 15, 99];
    let mut right = [20, 21, 22, 23, 99];
    {
        let join = Join::new(Image::new(&mut left, 2), Image::new(&mut right, 2));
        let mut faults = FaultList::new(join);
        enter(rt, &mut faults, 1)?;
        enter(rt, &mut faults, 5)?;
        let inner = Window::new(faults, 1, 9);
        let mut pile = Window::new(inner, 0, 3);
        outline(rt, "five deep", &pile)?;
        for sector in 0..4u32 {
            read(rt, &mut pile, sector, &mut [0, 0])?;
        }
        write(rt, &mut pile, 0, &[1, 2])?;
        write(rt, &mut pile, 1, &[1, 2])?;
        write(rt, &mut pile, 2, &[3, 4])?;
        write(rt, &mut pile, 3, &[5, 6])?;
        write(rt, &mut pile, 1, &[7])?;
        write(rt, &mut pile, 0, &[7, 7, 7])?;
        write(rt, &mut pile, 3, &[7])?;
        read(rt, &mut pile, 1, &mut [0, 0])?;
        read(rt, &mut pile, 2, &mut [0])?;
    }
    println!(rt; "left {left:?} right {right:?}")
}

/// The least and the greatest size, and sizes out of range; one sector and none.
fn sizes(rt: &HostRuntime) -> io::Result<()> {
    let mut bytes = [0; 4100];
    {
        let mut image = Image::new(&mut bytes, 0);
        outline(rt, "wanted 0", &image)?;
        write(rt, &mut image, 4099, &[8])?;
        write(rt, &mut image, 4100, &[8])?;
    }
    let mut sector = [5; 4096];
    {
        let mut image = Image::new(&mut bytes, u32::MAX);
        outline(rt, "wanted 4294967295", &image)?;
        let answer = image.write(0, &sector);
        show::answer(rt, "write", 0, answer)?;
        let answer = image.read(1, &mut sector);
        show::answer(rt, "read", 1, answer)?;
    }
    let [first, .., a, b, c, d, last] = bytes;
    println!(rt; "first {first}, at the end {a} {b} {c} {d} {last}")?;
    let mut none = Image::new(&mut bytes[0..3], 4);
    outline(rt, "no sector", &none)?;
    read(rt, &mut none, 0, &mut [0, 0, 0, 0])
}

/// Windows at and past the end, and joins of two sizes and of too many sectors.
fn edges(rt: &HostRuntime) -> io::Result<()> {
    let mut bytes = [1, 2, 3];
    let mut past = Window::new(Image::new(&mut bytes, 1), 3, 1);
    outline(rt, "window from the end", &past)?;
    read(rt, &mut past, 0, &mut [0])?;
    let mut last = Window::new(Image::new(&mut bytes, 1), 2, u32::MAX);
    outline(rt, "window on the last", &last)?;
    read(rt, &mut last, 0, &mut [0])?;
    read(rt, &mut last, 1, &mut [0])?;
    let mut other = [4, 5, 6, 7];
    let mut unlike = Join::new(Image::new(&mut bytes, 1), Image::new(&mut other, 2));
    outline(rt, "join of two sizes", &unlike)?;
    read(rt, &mut unlike, 2, &mut [0])?;
    read(rt, &mut unlike, 3, &mut [0, 0])?;
    let many = Fault {
        reason: Reason::Other(77),
        sector: 6,
        depth: 254,
    };
    let long = Join::new(Broken::new(4_294_967_294, many), Image::new(&mut bytes, 1));
    let mut pile = Window::new(long, 4_294_967_293, 9);
    outline(rt, "join of too many", &pile)?;
    read(rt, &mut pile, 0, &mut [0])?;
    read(rt, &mut pile, 1, &mut [0])?;
    read(rt, &mut pile, 2, &mut [0])
}

/// A fault list filled to its last place.
fn full_list(rt: &HostRuntime) -> io::Result<()> {
    let mut bytes = [0; 70];
    let mut faults = FaultList::new(Image::new(&mut bytes, 1));
    // Stays: a fault list writes its numbers into its caller's places: a device has no heap.
    let mut places = [70; 66];
    list(rt, &faults, &mut places)?;
    for sector in 0..66u32 {
        let accepted = faults.enter(sector).is_ok();
        if sector % 16 == 0 || !accepted {
            println!(rt; "entered {sector}: {accepted}")?;
        }
    }
    enter(rt, &mut faults, 9)?;
    enter(rt, &mut faults, 64)?;
    enter(rt, &mut faults, 70)?;
    list(rt, &faults, &mut [70; 63])?;
    list(rt, &faults, &mut places)?;
    write(rt, &mut faults, 63, &[1])?;
    write(rt, &mut faults, 64, &[1])?;
    write(rt, &mut faults, 64, &[])?;
    write(rt, &mut faults, 70, &[])
}

fn main(rt: HostRuntime) -> io::Result<()> {
    five_deep(&rt)?;
    sizes(&rt)?;
    edges(&rt)?;
    full_list(&rt)?;
    let row = loans::two_writes();
    println!(rt; "two writes {row:?}")
}
