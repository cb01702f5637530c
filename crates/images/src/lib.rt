#![tactic(auto)]

ghost use Rattle.std.specs.Prelude.{◌≡◌, ◌+◌, ◌*◌, ◌≤◌, length, take, drop};
ghost use borrow.Rule.Slice.PartMut.{put_mid};
ghost use Rattle.devices.specs.Device.{answer, after_read, after_write};
ghost use Rattle.images.specs.Image.{size_of, image_of, stored_of};
ghost use Rattle.images.specs.Sounds.{sounds};

use devices::device::SectorDevice;
use devices::fault::Fault;

/// A device over the caller's bytes: as many whole sectors as they give, one after the other.
/// Bytes left over at the end are never touched.
#[derive(Drop)]
pub struct Image<'a> {
    bytes: &'a mut [u8],
    wanted: u32,
}

impl<'a> Image<'a> {
    /// A wanted size of 0 counts as 1, and one over 4096 as 4096.
    pub fn new(bytes: &'a mut [u8], wanted: u32) -> Image<'a>
        ensures bytes_are_cut { image_of result.wanted result.bytes.now ≡ image_of wanted bytes.old }
        ensures bytes_are_held { result.bytes.now ≡ bytes.old }
        ensures same_loan { result.bytes.ghost_name ≡ bytes.entry.ghost_name }
        ensures size_is_wanted { result.wanted ≡ wanted }
    {
        Image { bytes, wanted }
    }

    /// The bytes as they are stored, those left over too.
    pub fn bytes(&self) -> &[u8]
        ensures bytes_are_told { result.now ≡ self.now.bytes.now }
    {
        &*self.bytes
    }

    fn sector_size(&self) -> u32
        ensures { result ≡ size_of self.now.wanted }
    {
        self.wanted.clamp(1, 4096)
    }

    /// Where a sector's bytes begin.
    fn start(&self, sector: u32) -> usize
        ensures { result ≡ sector * size_of self.now.wanted }
    {
        sector as usize * self.sector_size() as usize
    }

    /// Copies the bytes from `start` on into the buffer.
    fn copy_out(&self, start: usize, buffer: &mut [u8])
        requires { start + length buffer.old ≤ length self.now.bytes.now }
        ensures { buffer.new ≡ take (length buffer.old) (drop start self.now.bytes.now) }
    {
        let end = start + buffer.len();
        buffer.copy_from_slice(&self.bytes[start..end]);
    }

    /// Copies the buffer over the bytes from `start` on.
    fn copy_in(&mut self, start: usize, buffer: &[u8])
        requires { start + length buffer.now ≤ length self.old.bytes.now }
        ensures bytes_are_put { self.new.bytes.now ≡ put_mid start (length buffer.now) self.old.bytes.now buffer.now }
        ensures length_stays { length self.new.bytes.now ≡ length self.old.bytes.now }
        ensures size_stays { self.new.wanted ≡ self.old.wanted }
        ensures same_loan { self.new.bytes.ghost_name ≡ self.old.bytes.ghost_name }
    {
        let end = start + buffer.len();
        self.bytes[start..end].copy_from_slice(buffer);
    }
}

impl<'a> SectorDevice for Image<'a> {
    ghost meaning = { λ i. image_of i.wanted i.bytes.now };

    ghost sound = { λ i. sounds i.wanted i.bytes.now };

    fn size(&self) -> u32 {
        self.sector_size()
    }

    fn count(&self) -> u32 {
        let size = self.sector_size() as usize;
        u32::try_from(self.bytes.len() / size).unwrap_or(u32::MAX)
    }

    fn read(&mut self, sector: u32, buffer: &mut [u8]) -> Result<(), Fault>
        ensures call_is_answered { result ≡ answer (image_of self.old.wanted self.old.bytes.now) sector (length buffer.old) }
        ensures device_stays { image_of self.new.wanted self.new.bytes.now ≡ image_of self.old.wanted self.old.bytes.now }
        ensures buffer_is_filled { buffer.new ≡ after_read (image_of self.old.wanted self.old.bytes.now) sector buffer.old }
        ensures bytes_stay { self.new.bytes.now ≡ self.old.bytes.now }
        ensures size_stays { self.new.wanted ≡ self.old.wanted }
        ensures same_loan { self.new.bytes.ghost_name ≡ self.old.bytes.ghost_name }
    {
        self.admit(sector, buffer.len())?;
        self.copy_out(self.start(sector), buffer);
        Ok(())
    }

    // Stays: a read lends its buffer to be written and a write to be read; `admit` and `start` are what they share.
    fn write(&mut self, sector: u32, buffer: &[u8]) -> Result<(), Fault>
        ensures call_is_answered { result ≡ answer (image_of self.old.wanted self.old.bytes.now) sector (length buffer.now) }
        ensures sector_is_written { image_of self.new.wanted self.new.bytes.now ≡ after_write (image_of self.old.wanted self.old.bytes.now) sector buffer.now }
        ensures bytes_are_written { self.new.bytes.now ≡ stored_of self.old.wanted self.old.bytes.now sector buffer.now }
        ensures size_stays { self.new.wanted ≡ self.old.wanted }
        ensures same_loan { self.new.bytes.ghost_name ≡ self.old.bytes.ghost_name }
    {
        self.admit(sector, buffer.len())?;
        self.copy_in(self.start(sector), buffer);
        Ok(())
    }
}

/// Writes one sector into the caller's bytes, through an image that is gone afterwards: the caller
/// knows all its bytes again, those left over too.
pub fn store(bytes: &mut [u8], wanted: u32, sector: u32, buffer: &[u8]) -> Result<(), Fault>
    ensures call_is_answered { result ≡ answer (image_of wanted bytes.old) sector (length buffer.now) }
    ensures bytes_are_written { bytes.new ≡ stored_of wanted bytes.old sector buffer.now }
{
    let mut image = Image::new(bytes, wanted);
    image.write(sector, buffer)
}
