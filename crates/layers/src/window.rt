ghost use Rattle.std.specs.Prelude.{◌≡◌, ◌+◌, length};
ghost use Rattle.devices.specs.Device.{answer, after_read, after_write, written_if};
ghost use Rattle.layers.specs.Window.{window_of};
ghost use Rattle.layers.specs.Sounds.{window_sounds};

use devices::call::pass_up;
use devices::device::SectorDevice;
use devices::fault::Fault;

/// The sectors of a device from a start on, at most as many as are wanted.
#[derive(Drop)]
pub struct Window<D: SectorDevice> {
    device: D,
    start: u32,
    wanted: u32,
}

impl<D: SectorDevice> Window<D> {
    /// A start at or past the device's end shows no sector.
    pub fn new(device: D, start: u32, wanted: u32) -> Self
        ensures part_is_shown { window_of result.start result.wanted (D.meaning result.device) ≡ window_of start wanted (D.meaning device) }
        ensures place_is_kept { (result.start ≡ start) × (result.wanted ≡ wanted) }
        ensures device_is_below { result.device ≡ device }
    {
        Window {
            device,
            start,
            wanted,
        }
    }
}

// Stays: a fault list's lines are alike, and hand on to the device below too; each has its own definition in every clause.
impl<D: SectorDevice> SectorDevice for Window<D> {
    ghost meaning = { λ w. window_of w.start w.wanted (D.SectorDevice.meaning w.device) };

    ghost sound = { λ w. window_sounds w.start w.wanted (D.SectorDevice.meaning w.device) (D.SectorDevice.sound w.device) };

    fn size(&self) -> u32 {
        self.device.size()
    }

    fn count(&self) -> u32 {
        self.wanted
            .min(self.device.count().saturating_sub(self.start))
    }

    fn read(&mut self, sector: u32, buffer: &mut [u8]) -> Result<(), Fault>
        ensures call_is_answered { result ≡ answer (window_of self.old.start self.old.wanted (D.SectorDevice.meaning self.old.device)) sector (length buffer.old) }
        ensures device_stays { window_of self.new.start self.new.wanted (D.SectorDevice.meaning self.new.device) ≡ window_of self.old.start self.old.wanted (D.SectorDevice.meaning self.old.device) }
        ensures buffer_is_filled { buffer.new ≡ after_read (window_of self.old.start self.old.wanted (D.SectorDevice.meaning self.old.device)) sector buffer.old }
        ensures place_stays { (self.new.start ≡ self.old.start) × (self.new.wanted ≡ self.old.wanted) }
        ensures device_below_stays { D.SectorDevice.meaning self.new.device ≡ D.SectorDevice.meaning self.old.device }
    {
        self.admit(sector, buffer.len())?;
        pass_up(self.device.read(self.start + sector, buffer))
    }

    // Stays: a read lends its buffer to be written and a write to be read; `admit` and `pass_up` are what they share.
    fn write(&mut self, sector: u32, buffer: &[u8]) -> Result<(), Fault>
        ensures call_is_answered { result ≡ answer (window_of self.old.start self.old.wanted (D.SectorDevice.meaning self.old.device)) sector (length buffer.now) }
        ensures sector_is_written { window_of self.new.start self.new.wanted (D.SectorDevice.meaning self.new.device) ≡ after_write (window_of self.old.start self.old.wanted (D.SectorDevice.meaning self.old.device)) sector buffer.now }
        ensures place_stays { (self.new.start ≡ self.old.start) × (self.new.wanted ≡ self.old.wanted) }
        ensures device_below_is_written { D.SectorDevice.meaning self.new.device ≡ written_if (answer (window_of self.old.start self.old.wanted (D.SectorDevice.meaning self.old.device)) sector (length buffer.now)) (D.SectorDevice.meaning self.old.device) (self.old.start + sector) buffer.now }
    {
        self.admit(sector, buffer.len())?;
        pass_up(self.device.write(self.start + sector, buffer))
    }
}
