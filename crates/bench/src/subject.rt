use crate::plan::Plan;
use devices::device::SectorDevice;
use images::Image;
use modes::WideMode;
use std::io;
use std::time::{Duration, Instant};
use volumes::volume::Volume;

/// The two keys of a subject.
#[derive(Clone, Copy)]
pub struct Keys {
    pub old: &'static [u8],
    pub new: &'static [u8],
}

/// A mode that is measured, with another of its type for a volume.
#[derive(Drop)]
pub struct Subject<M: WideMode> {
    name: &'static str,
    mode: M,
    other: M,
    keys: Keys,
}

/// The shortest time of the runs that are accepted.
fn best<F: FnMut() -> bool>(
    rt: &HostRuntime,
    plan: Plan,
    mut run: F,
) -> io::Result<Option<Duration>>
    requires { F.IsAlwaysCallable run }
{
    let mut best: Option<Duration> = None;
    for _ in 0..plan.runs() {
        let start = Instant::now(rt)?;
        let accepted = run();
        let time = start.elapsed(rt)?;
        if accepted {
            best = Some(best.map_or(time, |shortest| shortest.min(time)));
        }
    }
    Ok(best)
}

/// Changes the key of the whole volume.
fn sweep<D: SectorDevice, M: WideMode>(volume: &mut Volume<D, M>, key: &[u8]) -> bool {
    volume.begin(key).is_ok() && (0..volume.count()).all(|_| volume.step().is_ok())
}

impl<M: WideMode> Subject<M> {
    pub fn new(name: &'static str, mode: M, other: M, keys: Keys) -> Subject<M> {
        Subject {
            name,
            mode,
            other,
            keys,
        }
    }

    fn run_key(&mut self, rt: &HostRuntime, plan: Plan, size: usize) -> io::Result<()> {
        let name = self.name;
        let key = self.keys.old;
        let times = plan.sectors(size);
        let mode = &mut self.mode;
        let time = best(rt, plan, || {
            (0..times).all(|_| mode.key(key, size).is_ok())
        })?;
        print!(rt; "{name} {size} ")?;
        plan.tell_time(rt, "key", times, time)
    }

    /// Enciphers a sector for one number after the other, and goes the same way back.
    fn run_sector(&self, rt: &HostRuntime, plan: Plan, sector: &mut [u8]) -> io::Result<()> {
        let name = self.name;
        let mode = &self.mode;
        let size = sector.len();
        let times = plan.sectors(size);
        let bytes = times.saturating_mul((size & 0xffff) as u32);
        let there = best(rt, plan, || {
            (0..times).all(|number| mode.encipher(number, sector).is_ok())
        })?;
        let back = best(rt, plan, || {
            (0..times)
                .rev()
                .all(|number| mode.decipher(number, sector).is_ok())
        })?;
        print!(rt; "{name} {size} ")?;
        plan.tell_rate(rt, "encipher", bytes, there)?;
        print!(rt; "{name} {size} ")?;
        plan.tell_rate(rt, "decipher", bytes, back)
    }

    fn run_sweep(
        self,
        rt: &HostRuntime,
        plan: Plan,
        image: &mut [u8],
        size: usize,
    ) -> io::Result<()> {
        let Subject {
            name,
            mode,
            other,
            keys,
        } = self;
        let bytes = (image.len() & 0xffff_ffff) as u32;
        let mut volume = Volume::new(Image::new(image, (size & 0xffff) as u32), mode, other);
        let opened = volume.open(keys.old).is_ok();
        let time = best(rt, plan, || { opened && sweep(&mut volume, keys.new) })?;
        print!(rt; "{name} {size} ")?;
        plan.tell_rate(rt, "sweep", bytes, time)
    }

    /// Keys, a sector there and back, and a key change over a volume.
    pub fn run(mut self, rt: &HostRuntime, plan: Plan, size: usize) -> io::Result<()> {
        self.run_key(rt, plan, size)?;
        let mut sector = vec![in rt.alloc(); 7u8; size]?;
        self.run_sector(rt, plan, &mut sector)?;
        if sector.iter().any(|byte| *byte != 7) {
            let name = self.name;
            println!(rt; "{name} {size} did not come back")?;
        }
        let mut image = vec![in rt.alloc(); 0u8; 131072]?;
        self.run_sweep(rt, plan, &mut image, size)
    }
}
