ghost use Rattle.std.specs.Prelude.{◌≡◌, length};
ghost use Rattle.devices.specs.Device.{answer, after_read, after_write};
ghost use Rattle.layers.specs.Join.{join_of, first_after, second_after};
ghost use Rattle.layers.specs.Sounds.{join_sounds};

use devices::call::pass_up;
use devices::device::SectorDevice;
use devices::fault::Fault;

/// Two devices end to end. A second one of another size is dropped, and so are the sectors past
/// the greatest count.
#[derive(Drop)]
pub struct Join<D: SectorDevice, E: SectorDevice> {
    first: D,
    second: E,
}

impl<D: SectorDevice, E: SectorDevice> Join<D, E> {
    pub fn new(first: D, second: E) -> Self
        ensures devices_are_joined { join_of (D.SectorDevice.meaning result.first) (E.SectorDevice.meaning result.second) ≡ join_of (D.SectorDevice.meaning first) (E.SectorDevice.meaning second) }
        ensures devices_are_below { (result.first ≡ first) × (result.second ≡ second) }
    {
        Join { first, second }
    }
}

impl<D: SectorDevice, E: SectorDevice> SectorDevice for Join<D, E> {
    ghost meaning = { λ j. join_of (D.SectorDevice.meaning j.first) (E.SectorDevice.meaning j.second) };

    ghost sound = { λ j. join_sounds (D.SectorDevice.meaning j.first) (E.SectorDevice.meaning j.second) (D.SectorDevice.sound j.first) (E.SectorDevice.sound j.second) };

    fn size(&self) -> u32 {
        self.first.size()
    }

    fn count(&self) -> u32 {
        let first = self.first.count();
        if self.first.size() != self.second.size() {
            return first;
        }
        first.saturating_add(self.second.count())
    }

    fn read(&mut self, sector: u32, buffer: &mut [u8]) -> Result<(), Fault>
        ensures call_is_answered { result ≡ answer (join_of (D.SectorDevice.meaning self.old.first) (E.SectorDevice.meaning self.old.second)) sector (length buffer.old) }
        ensures device_stays { join_of (D.SectorDevice.meaning self.new.first) (E.SectorDevice.meaning self.new.second) ≡ join_of (D.SectorDevice.meaning self.old.first) (E.SectorDevice.meaning self.old.second) }
        ensures buffer_is_filled { buffer.new ≡ after_read (join_of (D.SectorDevice.meaning self.old.first) (E.SectorDevice.meaning self.old.second)) sector buffer.old }
        ensures devices_below_stay { (D.SectorDevice.meaning self.new.first ≡ D.SectorDevice.meaning self.old.first) × (E.SectorDevice.meaning self.new.second ≡ E.SectorDevice.meaning self.old.second) }
    {
        self.admit(sector, buffer.len())?;
        match sector.checked_sub(self.first.count()) {
            None => pass_up(self.first.read(sector, buffer)),
            Some(past) => pass_up(self.second.read(past, buffer)),
        }
    }

    // Stays: a read lends its buffer to be written and a write to be read; `admit` and `pass_up` are what they share.
    fn write(&mut self, sector: u32, buffer: &[u8]) -> Result<(), Fault>
        ensures call_is_answered { result ≡ answer (join_of (D.SectorDevice.meaning self.old.first) (E.SectorDevice.meaning self.old.second)) sector (length buffer.now) }
        ensures sector_is_written { join_of (D.SectorDevice.meaning self.new.first) (E.SectorDevice.meaning self.new.second) ≡ after_write (join_of (D.SectorDevice.meaning self.old.first) (E.SectorDevice.meaning self.old.second)) sector buffer.now }
        ensures first_is_written { D.SectorDevice.meaning self.new.first ≡ first_after (answer (join_of (D.SectorDevice.meaning self.old.first) (E.SectorDevice.meaning self.old.second)) sector (length buffer.now)) (D.SectorDevice.meaning self.old.first) sector buffer.now }
        ensures second_is_written { E.SectorDevice.meaning self.new.second ≡ second_after (answer (join_of (D.SectorDevice.meaning self.old.first) (E.SectorDevice.meaning self.old.second)) sector (length buffer.now)) (D.SectorDevice.meaning self.old.first) (E.SectorDevice.meaning self.old.second) sector buffer.now }
    {
        self.admit(sector, buffer.len())?;
        match sector.checked_sub(self.first.count()) {
            None => pass_up(self.first.write(sector, buffer)),
            Some(past) => pass_up(self.second.write(past, buffer)),
        }
    }
}
