use std::io;
use std::time::Duration;

/// How often each thing is done, and what is told of it.
#[derive(Clone, Copy)]
pub enum Plan {
    Once,
    Measured,
}

impl Plan {
    /// How many runs are made, of which the best counts.
    pub fn runs(self) -> u32 {
        match self {
            Plan::Once => 1,
            Plan::Measured => 7,
        }
    }

    /// How many sectors are worked on in a run: about half a megabyte of them.
    pub fn sectors(self, size: usize) -> u32 {
        match self {
            Plan::Once => 1,
            Plan::Measured if size <= 512 => 1024,
            Plan::Measured => 128,
        }
    }

    /// Tells what was done, and where it was measured a figure of the seconds that it took.
    fn tell<F: FnOnce(f64) -> io::Result<()>>(
        self,
        rt: &HostRuntime,
        what: &str,
        time: Option<Duration>,
        figure: F,
    ) -> io::Result<()>
        requires { F.IsAlwaysCallable figure }
    {
        match (self, time) {
            (_, None) => println!(rt; "{what} refused"),
            (Plan::Once, _) => println!(rt; "{what} done"),
            (Plan::Measured, Some(time)) => {
                print!(rt; "{what} ")?;
                figure(time.as_secs_f64())
            }
        }
    }

    /// Tells the rate at which bytes were worked on.
    pub fn tell_rate(
        self,
        rt: &HostRuntime,
        what: &str,
        bytes: u32,
        time: Option<Duration>,
    ) -> io::Result<()> {
        self.tell(rt, what, time, |seconds| {
            let rate = f64::from(bytes) / seconds / 1e6;
            println!(rt; "{rate:.1} MB/s")
        })
    }

    /// Tells the time that one of so many calls took.
    // Stays: each tells its own figure; what they share is `tell`.
    pub fn tell_time(
        self,
        rt: &HostRuntime,
        what: &str,
        calls: u32,
        time: Option<Duration>,
    ) -> io::Result<()> {
        self.tell(rt, what, time, |seconds| {
            let each = seconds / f64::from(calls) * 1e6;
            println!(rt; "{each:.2} us")
        })
    }
}
