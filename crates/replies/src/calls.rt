ghost use Rattle.std.specs.Prelude.{◌≡◌, length, IfOk, IfErr, IsOk, vec_items};
ghost use Rattle.devices.specs.Device.{answer};
ghost use Rattle.volumes.specs.Faults.{named};
ghost use Rattle.volumes.specs.Volume.{view, volume_of, open_answer, after_open, begin_answer, after_begin, after_write_to};
ghost use Rattle.replies.specs.Told.{listed, read_answer};
ghost use Rattle.replies.specs.Told as tells;
ghost use Rattle.replies.specs.Steps.{steps_answer, after_steps};
ghost use Rattle.volumes.specs.declared.fault.CallName.TheVariants as names;

use crate::told::{called, faulted, reported, wrote};
use commands::answer::Answer;
use devices::device::SectorDevice;
use modes::WideMode;
use std::alloc::{AllocError, Global};
use volumes::fault::VolumeFault;
use volumes::volume::Volume;

/// The most bytes that a sector has.
const LARGEST: usize = 4096;

/// Opens the volume.
pub fn open<D: SectorDevice, M: WideMode>(volume: &mut Volume<D, M>, key: &[u8]) -> Answer<Vec<u8>>
    ensures call_is_told { result ≡ tells.called (named names.Open (open_answer M.kind (view D.meaning M.state volume.old) key.now)) }
    ensures volume_is_opened { view D.meaning M.state volume.new ≡ after_open M.kind (view D.meaning M.state volume.old) key.now }
{
    called(volume.open(key))
}

/// Begins a sweep.
pub fn begin<D: SectorDevice, M: WideMode>(volume: &mut Volume<D, M>, key: &[u8]) -> Answer<Vec<u8>>
    ensures call_is_told { result ≡ tells.called (named names.Begin (begin_answer M.kind (view D.meaning M.state volume.old) key.now)) }
    ensures sweep_is_begun { view D.meaning M.state volume.new ≡ after_begin M.kind (view D.meaning M.state volume.old) key.now }
{
    called(volume.begin(key))
}

fn steps<D: SectorDevice, M: WideMode>(
    volume: &mut Volume<D, M>,
    count: u32,
) -> Result<(), VolumeFault>
    ensures steps_are_answered { result ≡ steps_answer M.kind (view D.meaning M.state volume.old) count }
    ensures steps_are_made { view D.meaning M.state volume.new ≡ after_steps M.kind (view D.meaning M.state volume.old) count }
{
    for _ in 0..count {
        volume.step()?;
    }
    Ok(())
}

/// Makes steps, as far as the first that is refused.
pub fn step<D: SectorDevice, M: WideMode>(volume: &mut Volume<D, M>, count: u32) -> Answer<Vec<u8>>
    ensures steps_are_told { result ≡ tells.called (steps_answer M.kind (view D.meaning M.state volume.old) count) }
    ensures steps_are_made { view D.meaning M.state volume.new ≡ after_steps M.kind (view D.meaning M.state volume.old) count }
{
    called(steps(volume, count))
}

/// Reads a sector. Only the bytes of one that is read take memory.
pub fn read<D: SectorDevice, M: WideMode>(
    heap: Global,
    volume: &mut Volume<D, M>,
    sector: u32,
) -> Result<Answer<Vec<u8>>, AllocError>
    ensures sector_is_told { IfOk result (λ a. listed vec_items a ≡ read_answer (volume_of M.kind (view D.meaning M.state volume.old)) sector) }
    ensures only_bytes_take_memory { IfErr result (λ e. IsOk (answer (volume_of M.kind (view D.meaning M.state volume.old)) sector (volume_of M.kind (view D.meaning M.state volume.old)).size)) }
    ensures volume_stays { view D.meaning M.state volume.new ≡ view D.meaning M.state volume.old }
{
    let size = volume.size() as usize;
    let mut scratch = [0; LARGEST];
    let buffer = &mut scratch[..size];
    match volume.read(sector, buffer) {
        Ok(()) => {
            let bytes = Vec::from_slice(heap, buffer)?;
            Ok(Answer::Bytes(bytes))
        }
        Err(fault) => Ok(faulted(fault)),
    }
}

/// Writes a sector.
pub fn write<D: SectorDevice, M: WideMode>(
    volume: &mut Volume<D, M>,
    sector: u32,
    bytes: &[u8],
) -> Answer<Vec<u8>>
    ensures write_is_told { result ≡ tells.wrote (answer (volume_of M.kind (view D.meaning M.state volume.old)) sector (length bytes.now)) }
    ensures enciphered_below { view D.meaning M.state volume.new ≡ after_write_to M.kind (view D.meaning M.state volume.old) sector bytes.now }
{
    wrote(volume.write(sector, bytes))
}

/// Tells what the volume is doing.
pub fn report<D: SectorDevice, M: WideMode>(volume: &Volume<D, M>) -> Answer<Vec<u8>>
    ensures phase_is_told { result ≡ tells.reported (view D.meaning M.state volume.now).phase }
{
    reported(volume.report())
}
