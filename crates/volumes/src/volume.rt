ghost use Rattle.std.specs.Prelude.{◌≡◌};
ghost use Rattle.volumes.specs.Faults.{named};
ghost use Rattle.volumes.specs.Volume.{view, fresh, open_answer, after_open, begin_answer, after_begin, step_answer, after_step};

use crate::fault::{CallName, Refusal, VolumeFault};
use crate::phase::Phase;
use crate::rekey::rekey;
use devices::device::SectorDevice;
use modes::WideMode;

/// A volume on a device, with two modes of one type. During a sweep the next mode serves the sectors below the mark, and
/// the current one the others.
// Stays: clauses see a volume as `view D.meaning M.state v`. An `impl Model` would owe the `sound` of a device at each value
// of the model, also at those that no volume has.
#[derive(Drop)]
pub struct Volume<D: SectorDevice, M: WideMode> {
    pub(crate) device: D,
    pub(crate) current: M,
    pub(crate) next: M,
    pub(crate) phase: Phase,
}

/// The answer to a call, by its name.
fn name(call: CallName, answer: Result<(), Refusal>) -> Result<(), VolumeFault>
    ensures { result ≡ named call answer }
{
    answer.map_err(|refusal| VolumeFault { call, refusal })
}

impl<D: SectorDevice, M: WideMode> Volume<D, M> {
    /// A closed volume. What keys the modes held before does not count.
    pub fn new(device: D, current: M, next: M) -> Self
        ensures volume_is_closed { view D.meaning M.state result ≡ fresh (D.meaning device) (M.state current) (M.state next) }
    {
        Volume {
            device,
            current,
            next,
            phase: Phase::Closed,
        }
    }

    fn key_current(&mut self, key: &[u8]) -> Result<(), Refusal>
        ensures call_is_answered { result ≡ open_answer M.kind (view D.meaning M.state self.old) key.now }
        ensures volume_is_opened { view D.meaning M.state self.new ≡ after_open M.kind (view D.meaning M.state self.old) key.now }
    {
        let Phase::Closed = self.phase else {
            return Err(Refusal::AlreadyOpen);
        };
        if self.device.count() == 0 {
            return Err(Refusal::NoSectors);
        }
        let size = self.device.size() as usize;
        self.current.key(key, size)?;
        self.phase = Phase::Open;
        Ok(())
    }

    /// Opens the volume with a key for all its sectors.
    pub fn open(&mut self, key: &[u8]) -> Result<(), VolumeFault>
        ensures call_is_answered { result ≡ named CallName.Open (open_answer M.kind (view D.meaning M.state self.old) key.now) }
        ensures volume_is_opened { view D.meaning M.state self.new ≡ after_open M.kind (view D.meaning M.state self.old) key.now }
    {
        name(CallName::Open, self.key_current(key))
    }

    fn key_next(&mut self, key: &[u8]) -> Result<(), Refusal>
        ensures call_is_answered { result ≡ begin_answer M.kind (view D.meaning M.state self.old) key.now }
        ensures sweep_is_begun { view D.meaning M.state self.new ≡ after_begin M.kind (view D.meaning M.state self.old) key.now }
    {
        match self.phase {
            Phase::Closed => Err(Refusal::Closed),
            Phase::Sweeping(_) => Err(Refusal::SweepUnderWay),
            Phase::Open => {
                let size = self.device.size() as usize;
                self.next.key(key, size)?;
                self.phase = Phase::Sweeping(0);
                Ok(())
            }
        }
    }

    /// Begins a sweep that changes the key, with no sector changed yet.
    pub fn begin(&mut self, key: &[u8]) -> Result<(), VolumeFault>
        ensures call_is_answered { result ≡ named CallName.Begin (begin_answer M.kind (view D.meaning M.state self.old) key.now) }
        ensures sweep_is_begun { view D.meaning M.state self.new ≡ after_begin M.kind (view D.meaning M.state self.old) key.now }
    {
        name(CallName::Begin, self.key_next(key))
    }

    fn move_mark(&mut self) -> Result<(), Refusal>
        ensures call_is_answered { result ≡ step_answer (view D.meaning M.state self.old) }
        ensures sector_is_rekeyed { view D.meaning M.state self.new ≡ after_step M.kind (view D.meaning M.state self.old) }
    {
        match self.phase {
            Phase::Closed => Err(Refusal::Closed),
            Phase::Open => Err(Refusal::NoSweep),
            Phase::Sweeping(mark) => {
                rekey(&mut self.device, &self.current, &self.next, mark);
                if mark < self.device.count().saturating_sub(1) {
                    self.phase = Phase::Sweeping(mark + 1);
                } else {
                    std::mem::swap(&mut self.current, &mut self.next);
                    self.phase = Phase::Open;
                }
                Ok(())
            }
        }
    }

    /// Changes the key of the sector at the mark and moves the mark by one. At the last sector the sweep is over, and the
    /// next key is the current one. A sector with a standing fault is passed over.
    pub fn step(&mut self) -> Result<(), VolumeFault>
        ensures call_is_answered { result ≡ named CallName.Step (step_answer (view D.meaning M.state self.old)) }
        ensures sector_is_rekeyed { view D.meaning M.state self.new ≡ after_step M.kind (view D.meaning M.state self.old) }
    {
        name(CallName::Step, self.move_mark())
    }

    /// The device below, to look at.
    pub fn device(&self) -> &D
        ensures device_is_told { result.now ≡ self.now.device }
    {
        &self.device
    }

    /// What the volume is doing.
    pub fn report(&self) -> Phase
        ensures phase_is_told { result ≡ (view D.meaning M.state self.now).phase }
    {
        self.phase
    }
}
