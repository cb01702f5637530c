ghost use Rattle.runs.specs.Law.{VolumeLaw};

use devices::device::SectorDevice;
use modes::WideMode;

/// The law of volumes, for every sector device, every wide mode and every list of calls.
pub fn every_volume_upholds_the_law<D: SectorDevice, M: WideMode>()
    ensures law { VolumeLaw M.WideMode.kind }
{}
