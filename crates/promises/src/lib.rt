//! What is promised of the whole, in one contract.

#![tactic(auto)]

ghost use Rattle.runs.specs.Law.{VolumeLaw};
ghost use Rattle.wide.specs.Undoing.{Undoing};

use devices::device::SectorDevice;
use modes::WideMode;

/// For every block ring and cipher, deciphering undoes enciphering and enciphering undoes deciphering, in TET and in HEH; and
/// for every sector device, every wide mode and every list of calls, a volume upholds its law.
pub fn promises_hold<D: SectorDevice, M: WideMode>()
    ensures each_direction_undoes_the_other { Undoing }
    ensures volumes_uphold_the_law { VolumeLaw M.WideMode.kind }
{
    wide::deciphering_undoes_enciphering();
    runs::law::every_volume_upholds_the_law::<D, M>();
}
