ghost use Rattle.std.specs.Prelude.{◌≡◌, Some, decimal};
ghost use Rattle.volumes.specs.Faults.{refusal_number};
ghost use Rattle.volumes.specs.declared.fault.Refusal.TheVariants.{Mode as OfMode};

use modes::ModeFault;
use std::error::Error;
use std::fmt;
use std::fmt::Display;

/// The calls of a volume that are refused by name.
// Stays: the console's `CallWord` has one more, and its crate knows nothing of volumes.
#[derive(Clone, Copy, PartialEq, Eq, Debug)]
pub enum CallName {
    Open,
    Begin,
    Step,
}

/// Why open, begin or step is refused.
#[derive(Clone, Copy, PartialEq, Eq, Debug)]
pub enum Refusal {
    /// The volume is closed.
    Closed,
    /// The volume is open already.
    AlreadyOpen,
    /// No sweep is under way.
    NoSweep,
    /// A sweep is under way.
    SweepUnderWay,
    /// The device has no sectors.
    NoSectors,
    /// The mode refuses the key.
    Mode(ModeFault),
}

impl Refusal {
    pub fn number(self) -> u8
        ensures { result ≡ refusal_number self }
    {
        match self {
            Refusal::Closed => 4,
            Refusal::AlreadyOpen => 8,
            Refusal::NoSweep => 9,
            Refusal::SweepUnderWay => 10,
            Refusal::NoSectors => 11,
            Refusal::Mode(fault) => fault.number(),
        }
    }
}

impl From<ModeFault> for Refusal {
    ghost from_gives = { λ x y. y ≡ OfMode x };

    fn from(value: ModeFault) -> Refusal {
        Refusal::Mode(value)
    }
}

/// Its number.
impl Display for Refusal {
    ghost output = { λ refusal. Some (decimal (refusal_number refusal)) };

    fn fmt<W: fmt::Write>(&self, f: &mut fmt::Formatter<W>) -> fmt::Result {
        self.number().fmt(f)
    }
}

impl Error for Refusal {}

/// A refused open, begin or step.
#[derive(Clone, Copy, PartialEq, Eq, Debug)]
pub struct VolumeFault {
    pub call: CallName,
    pub refusal: Refusal,
}

/// The number of its refusal.
impl Display for VolumeFault {
    ghost output = { λ fault. Some (decimal (refusal_number fault.refusal)) };

    fn fmt<W: fmt::Write>(&self, f: &mut fmt::Formatter<W>) -> fmt::Result {
        self.refusal.fmt(f)
    }
}

impl Error for VolumeFault {}
