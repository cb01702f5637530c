ghost use Rattle.std.specs.Prelude.{◌≡◌, length};
ghost use Rattle.devices.specs.Device.{DeviceMeaning, Sound, answer, after_read, after_write};
ghost use Rattle.devices.specs.Faults.{checked};

use crate::call::check;
use crate::fault::Fault;

/// A row of sectors of one size, which a program reads and writes one at a time.
///
/// Both calls are refused for a sector that is not below the count, then for a buffer that has not
/// the sector's size, then for a standing fault, and for nothing else. A refused call changes
/// nothing.
pub trait SectorDevice {
    /// The size of a sector, and each sector's bytes or standing fault.
    ghost meaning: { Self → DeviceMeaning };

    ghost sound: { (d : Self) → Sound (meaning d) };

    /// How many bytes a sector has: 1 to 4096.
    fn size(&self) -> u32
        ensures { result ≡ (meaning self.now).size };

    /// How many sectors there are.
    fn count(&self) -> u32
        ensures { result ≡ length (meaning self.now).sectors };

    /// Fills the buffer with the sector's bytes.
    fn read(&mut self, sector: u32, buffer: &mut [u8]) -> Result<(), Fault>
        ensures call_is_answered { result ≡ answer (meaning self.old) sector (length buffer.old) }
        ensures device_stays { meaning self.new ≡ meaning self.old }
        ensures buffer_is_filled { buffer.new ≡ after_read (meaning self.old) sector buffer.old };

    /// Puts the buffer into the sector.
    fn write(&mut self, sector: u32, buffer: &[u8]) -> Result<(), Fault>
        ensures call_is_answered { result ≡ answer (meaning self.old) sector (length buffer.now) }
        ensures sector_is_written { meaning self.new ≡ after_write (meaning self.old) sector buffer.now };

    /// The checks of a call, for a device to make first: the sector's number, then the buffer's length.
    fn admit(&self, sector: u32, len: usize) -> Result<(), Fault>
        ensures { result ≡ checked (length (meaning self.now).sectors) (meaning self.now).size sector len }
    {
        check(self.count(), self.size(), sector, len)
    }
}
