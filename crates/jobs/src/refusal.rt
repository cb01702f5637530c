//! Why a job is refused.

ghost use Rattle.std.specs.Prelude.{◌≡◌, Some, decimal};
ghost use Rattle.jobs.specs.Answers.{refusal_number, place_fault_number};
ghost use Rattle.jobs.specs.declared.refusal.Refusal.TheVariants.{Record as RecordOf, Mode as ModeOf};

use modes::ModeFault;
use records::RecordFault;
use std::error::Error;
use std::fmt;

/// Why a job is refused: an answer with its number is written.
#[derive(Clone, Copy, PartialEq, Eq, Debug)]
pub enum Refusal {
    /// The record is no job.
    Record(RecordFault),
    /// The mode refuses the key, the sector or the tweak.
    Mode(ModeFault),
}

impl Refusal {
    /// The number of the refusal.
    pub fn number(self) -> u8
        ensures number { result ≡ refusal_number self }
    {
        match self {
            Refusal::Record(fault) => fault.number(),
            Refusal::Mode(fault) => fault.number(),
        }
    }
}

/// Prints the number of the refusal.
impl fmt::Display for Refusal {
    ghost output = { λ refusal. Some (decimal (refusal_number refusal)) };

    fn fmt<W: fmt::Write>(&self, f: &mut fmt::Formatter<W>) -> fmt::Result {
        match self {
            Refusal::Record(fault) => write!(f, "{fault}"),
            Refusal::Mode(fault) => write!(f, "{fault}"),
        }
    }
}

impl Error for Refusal {}

impl From<RecordFault> for Refusal {
    ghost from_gives = { λ x y. y ≡ RecordOf x };

    fn from(value: RecordFault) -> Refusal {
        Refusal::Record(value)
    }
}

impl From<ModeFault> for Refusal {
    ghost from_gives = { λ x y. y ≡ ModeOf x };

    fn from(value: ModeFault) -> Refusal {
        Refusal::Mode(value)
    }
}

/// Why the call is refused: nothing is written.
#[derive(Clone, Copy, PartialEq, Eq, Debug)]
pub enum PlaceFault {
    /// The place has fewer than 4,099 bytes.
    Short,
}

impl PlaceFault {
    /// The number of the refusal.
    pub fn number(self) -> u8
        ensures number { result ≡ place_fault_number self }
    {
        match self {
            PlaceFault::Short => 14,
        }
    }
}

/// Prints the number of the refusal.
impl fmt::Display for PlaceFault {
    ghost output = { λ fault. Some (decimal (place_fault_number fault)) };

    fn fmt<W: fmt::Write>(&self, f: &mut fmt::Formatter<W>) -> fmt::Result {
        write!(f, "{}", self.number())
    }
}

impl Error for PlaceFault {}
