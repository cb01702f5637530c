ghost use Rattle.std.specs.Prelude.{◌≡◌, length};
ghost use Rattle.devices.specs.Device.{answer, after_read, after_write};
ghost use Rattle.volumes.specs.Sounds.{volume_sounds};
ghost use Rattle.volumes.specs.Volume.{view, serving, open_check, volume_of, after_write_to};

use crate::phase::Phase;
use crate::serve::{LARGEST, decipher, encipher};
use crate::volume::Volume;
use devices::call::pass_up;
use devices::device::SectorDevice;
use devices::fault::{Fault, Reason};
use modes::WideMode;

impl<D: SectorDevice, M: WideMode> Volume<D, M> {
    /// Refuses every sector while the volume is closed.
    fn check_open(&self, sector: u32) -> Result<(), Fault>
        ensures { result ≡ open_check self.now.phase sector }
    {
        match self.phase {
            Phase::Closed => Err(Fault::new(Reason::Closed, sector)),
            Phase::Open | Phase::Sweeping(_) => Ok(()),
        }
    }

    /// The mode that serves a sector: below the mark the next, otherwise the current.
    fn serving(&self, sector: u32) -> &M
        ensures { M.state result.now ≡ serving (view D.meaning M.state self.now) sector }
    {
        match self.phase {
            Phase::Sweeping(mark) if sector < mark => &self.next,
            _ => &self.current,
        }
    }
}

impl<D: SectorDevice, M: WideMode> SectorDevice for Volume<D, M> {
    ghost meaning = { λ v. volume_of M.WideMode.kind (view D.SectorDevice.meaning M.WideMode.state v) };

    ghost sound = { λ v. volume_sounds M.WideMode.kind (view D.SectorDevice.meaning M.WideMode.state v) (M.WideMode.fitting v.current) (M.WideMode.fitting v.next) (D.SectorDevice.sound v.device) };

    fn size(&self) -> u32 {
        self.device.size()
    }

    fn count(&self) -> u32 {
        self.device.count()
    }

    fn read(&mut self, sector: u32, buffer: &mut [u8]) -> Result<(), Fault>
        ensures call_is_answered { result ≡ answer (volume_of M.WideMode.kind (view D.SectorDevice.meaning M.WideMode.state self.old)) sector (length buffer.old) }
        ensures device_stays { volume_of M.WideMode.kind (view D.SectorDevice.meaning M.WideMode.state self.new) ≡ volume_of M.WideMode.kind (view D.SectorDevice.meaning M.WideMode.state self.old) }
        ensures buffer_is_filled { buffer.new ≡ after_read (volume_of M.WideMode.kind (view D.SectorDevice.meaning M.WideMode.state self.old)) sector buffer.old }
        ensures volume_stays { view D.SectorDevice.meaning M.WideMode.state self.new ≡ view D.SectorDevice.meaning M.WideMode.state self.old }
    {
        self.admit(sector, buffer.len())?;
        self.check_open(sector)?;
        let mut scratch = [0; LARGEST];
        let bytes = &mut scratch[0..buffer.len()];
        let below = self.device.read(sector, bytes);
        decipher(self.serving(sector), sector, bytes)?;
        pass_up(below)?;
        buffer.copy_from_slice(bytes);
        Ok(())
    }

    // Stays: a read lends its buffer to be written and a write to be read; `admit` and `pass_up` are what they share.
    fn write(&mut self, sector: u32, buffer: &[u8]) -> Result<(), Fault>
        ensures call_is_answered { result ≡ answer (volume_of M.WideMode.kind (view D.SectorDevice.meaning M.WideMode.state self.old)) sector (length buffer.now) }
        ensures sector_is_written { volume_of M.WideMode.kind (view D.SectorDevice.meaning M.WideMode.state self.new) ≡ after_write (volume_of M.WideMode.kind (view D.SectorDevice.meaning M.WideMode.state self.old)) sector buffer.now }
        ensures enciphered_below { view D.SectorDevice.meaning M.WideMode.state self.new ≡ after_write_to M.WideMode.kind (view D.SectorDevice.meaning M.WideMode.state self.old) sector buffer.now }
    {
        self.admit(sector, buffer.len())?;
        self.check_open(sector)?;
        let mut scratch = [0; LARGEST];
        let bytes = &mut scratch[0..buffer.len()];
        bytes.copy_from_slice(buffer);
        encipher(self.serving(sector), sector, bytes)?;
        pass_up(self.device.write(sector, bytes))
    }
}
