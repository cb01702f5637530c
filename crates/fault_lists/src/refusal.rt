ghost use Rattle.std.specs.Prelude.{◌≡◌, Some, decimal};
ghost use Rattle.fault_lists.specs.Numbers.{enter_number, list_number};

use std::error::Error;
use std::fmt;
use std::fmt::Display;

/// Why a number is not entered into a fault list.
#[derive(Clone, Copy, PartialEq, Eq, Debug)]
pub enum EnterRefusal {
    /// The number is not below the device's count.
    NoSuchSector,
    /// The list holds as many numbers as it has room for.
    ListFull,
}

impl EnterRefusal {
    pub fn number(self) -> u8
        ensures { result ≡ enter_number self }
    {
        match self {
            EnterRefusal::NoSuchSector => 1,
            EnterRefusal::ListFull => 15,
        }
    }
}

/// Its number.
impl Display for EnterRefusal {
    ghost output = { λ refusal. Some (decimal (enter_number refusal)) };

    fn fmt<W: fmt::Write>(&self, f: &mut fmt::Formatter<W>) -> fmt::Result {
        self.number().fmt(f)
    }
}

impl Error for EnterRefusal {}

/// Why the numbers of a fault list are not written out.
#[derive(Clone, Copy, PartialEq, Eq, Debug)]
pub enum ListRefusal {
    /// There are fewer places than a full list needs.
    TooFewPlaces,
}

impl ListRefusal {
    pub fn number(self) -> u8
        ensures { result ≡ list_number self }
    {
        match self {
            ListRefusal::TooFewPlaces => 2,
        }
    }
}

/// Its number.
impl Display for ListRefusal {
    ghost output = { λ refusal. Some (decimal (list_number refusal)) };

    fn fmt<W: fmt::Write>(&self, f: &mut fmt::Formatter<W>) -> fmt::Result {
        self.number().fmt(f)
    }
}

impl Error for ListRefusal {}
