ghost use Rattle.std.specs.Prelude.{◌≡◌, ◌<◌, ◌≤◌, [], length};
ghost use Rattle.devices.specs.Device.{answer, after_read, after_write, written_if};
ghost use Rattle.fault_lists.specs.Held.{held_by, AlwaysBounded, Listed, enter_answer, after_enter, list_answer};
ghost use Rattle.fault_lists.specs.FaultList.{fault_list_of};
ghost use Rattle.fault_lists.specs.Sounds.{sounds};

use crate::refusal::{EnterRefusal, ListRefusal};
use crate::table::Table;
use devices::call::pass_up;
use devices::device::SectorDevice;
use devices::fault::Fault;

/// A device over any other that gives the sectors entered into it, up to 64, a standing fault of
/// its own, before any from below.
#[derive(Drop)]
pub struct FaultList<D: SectorDevice> {
    device: D,
    table: Table,
}

impl<D: SectorDevice> FaultList<D> {
    /// A list that holds no number. Whatever is entered after, it will hold none twice.
    pub fn new(device: D) -> Self
        ensures no_number_is_held { held_by result.table ≡ [] }
        ensures none_will_be_held_twice { AlwaysBounded }
        ensures device_is_below { result.device ≡ device }
    {
        FaultList {
            device,
            table: Table::new(),
        }
    }

    /// The device below.
    pub fn device(&self) -> &D
        ensures device_is_told { result.now ≡ self.now.device }
    {
        &self.device
    }

    /// Gives a sector its standing fault. A number that is held already is accepted.
    pub fn enter(&mut self, sector: u32) -> Result<(), EnterRefusal>
        ensures call_is_answered { result ≡ enter_answer (length (D.meaning self.old.device).sectors) (held_by self.old.table) sector }
        ensures number_is_entered { held_by self.new.table ≡ after_enter (length (D.meaning self.old.device).sectors) (held_by self.old.table) sector }
        ensures device_below_stays { D.meaning self.new.device ≡ D.meaning self.old.device }
    {
        if sector >= self.device.count() {
            return Err(EnterRefusal::NoSuchSector);
        }
        self.table.enter(sector)
    }

    /// Writes the numbers held into the first places, each once and in no promised order, and
    /// answers how many there are. There must be places for a full list.
    // Stays: a device has no heap, so that its caller gives the places for the numbers.
    pub fn list(&self, places: &mut [u32]) -> Result<usize, ListRefusal>
        ensures count_is_answered { result ≡ list_answer (held_by self.now.table) (length places.old) }
        ensures too_few_places_stay { length places.old < 64 → places.new ≡ places.old }
        ensures numbers_are_listed { 64 ≤ length places.old → Listed (held_by self.now.table) places.old places.new }
    {
        self.table.list(places)
    }
}

impl<D: SectorDevice> SectorDevice for FaultList<D> {
    ghost meaning = { λ l. fault_list_of (held_by l.table) (D.SectorDevice.meaning l.device) };

    ghost sound = { λ l. sounds (held_by l.table) (D.SectorDevice.meaning l.device) (D.SectorDevice.sound l.device) };

    fn size(&self) -> u32 {
        self.device.size()
    }

    fn count(&self) -> u32 {
        self.device.count()
    }

    fn read(&mut self, sector: u32, buffer: &mut [u8]) -> Result<(), Fault>
        ensures call_is_answered { result ≡ answer (fault_list_of (held_by self.old.table) (D.SectorDevice.meaning self.old.device)) sector (length buffer.old) }
        ensures device_stays { fault_list_of (held_by self.new.table) (D.SectorDevice.meaning self.new.device) ≡ fault_list_of (held_by self.old.table) (D.SectorDevice.meaning self.old.device) }
        ensures buffer_is_filled { buffer.new ≡ after_read (fault_list_of (held_by self.old.table) (D.SectorDevice.meaning self.old.device)) sector buffer.old }
        ensures numbers_stay { held_by self.new.table ≡ held_by self.old.table }
        ensures device_below_stays { D.SectorDevice.meaning self.new.device ≡ D.SectorDevice.meaning self.old.device }
    {
        self.admit(sector, buffer.len())?;
        self.table.check(sector)?;
        pass_up(self.device.read(sector, buffer))
    }

    // Stays: a read lends its buffer to be written and a write to be read; `admit` and `pass_up` are what they share.
    fn write(&mut self, sector: u32, buffer: &[u8]) -> Result<(), Fault>
        ensures call_is_answered { result ≡ answer (fault_list_of (held_by self.old.table) (D.SectorDevice.meaning self.old.device)) sector (length buffer.now) }
        ensures sector_is_written { fault_list_of (held_by self.new.table) (D.SectorDevice.meaning self.new.device) ≡ after_write (fault_list_of (held_by self.old.table) (D.SectorDevice.meaning self.old.device)) sector buffer.now }
        ensures numbers_stay { held_by self.new.table ≡ held_by self.old.table }
        ensures device_below_is_written { D.SectorDevice.meaning self.new.device ≡ written_if (answer (fault_list_of (held_by self.old.table) (D.SectorDevice.meaning self.old.device)) sector (length buffer.now)) (D.SectorDevice.meaning self.old.device) sector buffer.now }
    {
        self.admit(sector, buffer.len())?;
        self.table.check(sector)?;
        pass_up(self.device.write(sector, buffer))
    }
}
