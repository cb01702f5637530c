ghost use Rattle.std.specs.Prelude.{◌≡◌, length};
ghost use Rattle.volumes.specs.Volume.{both_check, reciphered, rekeyed_at};

use crate::serve::{LARGEST, decipher, encipher};
use devices::device::SectorDevice;
use devices::fault::Fault;
use modes::WideMode;

/// Deciphers a sector with one mode and enciphers it with the other.
fn recipher<M: WideMode>(current: &M, next: &M, sector: u32, buffer: &mut [u8]) -> Result<(), Fault>
    ensures call_is_answered { result ≡ both_check (M.state current.now) (M.state next.now) (length buffer.old) sector }
    ensures buffer_is_reciphered { buffer.new ≡ reciphered M.kind (M.state current.now) (M.state next.now) sector buffer.old }
{
    decipher(current, sector, buffer)?;
    encipher(next, sector, buffer)
}

/// Changes the key of one sector: reads it below, deciphers it with the current mode, enciphers it with the next and
/// writes it below. A sector with a standing fault stays.
pub fn rekey<D: SectorDevice, M: WideMode>(device: &mut D, current: &M, next: &M, sector: u32)
    ensures sector_is_rekeyed { D.SectorDevice.meaning device.new ≡ rekeyed_at M.WideMode.kind (M.WideMode.state current.now) (M.WideMode.state next.now) sector (D.SectorDevice.meaning device.old) }
{
    let size = device.size() as usize;
    let mut scratch = [0; LARGEST];
    let bytes = &mut scratch[0..size];
    if device.read(sector, bytes).is_ok() && recipher(current, next, sector, bytes).is_ok() {
        let _ = device.write(sector, bytes);
    }
}
