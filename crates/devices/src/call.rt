ghost use Rattle.std.specs.Prelude.{◌≡◌};
ghost use Rattle.devices.specs.Faults.{checked, passed_up};

use crate::fault::{Fault, Reason};

/// The checks that come before a standing fault: the sector's number, then the buffer's length.
pub fn check(count: u32, size: u32, sector: u32, length: usize) -> Result<(), Fault>
    ensures { result ≡ checked count size sector length }
{
    if sector >= count {
        return Err(Fault::new(Reason::NoSuchSector, sector));
    }
    if length != size as usize {
        return Err(Fault::new(Reason::WrongLength, sector));
    }
    Ok(())
}

/// A layer's answer, from what the device below it answered.
pub fn pass_up(answer: Result<(), Fault>) -> Result<(), Fault>
    ensures { result ≡ passed_up answer }
{
    answer.map_err(Fault::passed_up)
}
