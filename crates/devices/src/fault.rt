ghost use Rattle.std.specs.Prelude.{◌≡◌, Some};
ghost use Rattle.devices.specs.Numbers.{number_of};
ghost use Rattle.devices.specs.Faults.{own, deeper};
ghost use Rattle.devices.specs.Texts.{reason_text, fault_text};

use std::error::Error;
use std::fmt;
use std::fmt::Display;

/// Why a read or a write is refused.
#[derive(Clone, Copy, PartialEq, Eq, Debug)]
pub enum Reason {
    /// The sector is not below the count.
    NoSuchSector,
    /// The buffer has not the sector's size.
    WrongLength,
    /// The sector stands in a fault list.
    Listed,
    /// The volume is closed.
    Closed,
    /// A reason of a device of another make, by its own number.
    // Stays: what another make means by its number is not known here.
    Other(u8),
}

impl Reason {
    pub fn number(self) -> u8
        ensures { result ≡ number_of self }
    {
        match self {
            Reason::NoSuchSector => 1,
            Reason::WrongLength => 2,
            Reason::Listed => 3,
            Reason::Closed => 4,
            Reason::Other(number) => number,
        }
    }
}

/// Its number.
impl Display for Reason {
    ghost output = { λ reason. Some (reason_text reason) };

    fn fmt<W: fmt::Write>(&self, f: &mut fmt::Formatter<W>) -> fmt::Result {
        self.number().fmt(f)
    }
}

/// A refusal: its reason and sector are those of the layer where it arose, and depth counts the
/// layers that it has been passed up through, to 255.
#[derive(Clone, Copy, PartialEq, Eq, Debug)]
pub struct Fault {
    pub reason: Reason,
    pub sector: u32,
    pub depth: u8,
}

impl Fault {
    /// A fault of the layer that was asked.
    pub fn new(reason: Reason, sector: u32) -> Fault
        ensures { result ≡ own reason sector }
    {
        Fault {
            reason,
            sector,
            depth: 0,
        }
    }

    /// The same fault as the next layer up shows it.
    pub fn passed_up(self) -> Fault
        ensures { result ≡ deeper self }
    {
        Fault {
            depth: self.depth.saturating_add(1),
            ..self
        }
    }
}

/// As `3, sector 5, depth 1`: the number of the reason first.
impl Display for Fault {
    ghost output = { λ fault. Some (fault_text fault) };

    fn fmt<W: fmt::Write>(&self, f: &mut fmt::Formatter<W>) -> fmt::Result {
        let Fault {
            reason,
            sector,
            depth,
        } = self;
        write!(f, "{reason}, sector {sector}, depth {depth}")
    }
}

impl Error for Fault {}
