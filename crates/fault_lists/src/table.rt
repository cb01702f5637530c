ghost use Rattle.std.specs.Prelude.{◌≡◌, ◌<◌, ◌≤◌, [], length};
ghost use Rattle.fault_lists.specs.Once.{Once};

use crate::refusal::{EnterRefusal, ListRefusal};
use arrayvec::ArrayVec;
use devices::fault::{Fault, Reason};

/// How many numbers a list has room for.
pub const ROOM: usize = 64;

/// The numbers of a fault list, none of them twice.
#[derive(Drop)]
pub struct Table {
    numbers: ArrayVec<u32, ROOM>,
    ghost once: { Once numbers.items },
}

impl Table {
    ghost use Rattle.fault_lists.specs.Held.{held_by, is_held, Listed, entered, table_answer, listed_check, list_answer};

    pub fn new() -> Table
        ensures { held_by result ≡ [] }
    {
        Table {
            numbers: ArrayVec::new(),
        }
    }

    fn holds(&self, number: u32) -> bool
        ensures { result ≡ is_held (held_by self.now) number }
    {
        self.numbers.contains(&number)
    }

    /// Refuses a sector whose number is held.
    pub fn check(&self, sector: u32) -> Result<(), Fault>
        ensures { result ≡ listed_check (held_by self.now) sector }
    {
        if self.holds(sector) {
            return Err(Fault::new(Reason::Listed, sector));
        }
        Ok(())
    }

    pub fn enter(&mut self, number: u32) -> Result<(), EnterRefusal>
        ensures call_is_answered { result ≡ table_answer (held_by self.old) number }
        ensures number_is_entered { held_by self.new ≡ entered (held_by self.old) number }
    {
        if self.holds(number) {
            return Ok(());
        }
        self.numbers
            .try_push(number)
            .map_err(|_| EnterRefusal::ListFull)
    }

    pub fn list(&self, places: &mut [u32]) -> Result<usize, ListRefusal>
        ensures count_is_answered { result ≡ list_answer (held_by self.now) (length places.old) }
        ensures too_few_places_stay { length places.old < 64 → places.new ≡ places.old }
        ensures numbers_are_listed { 64 ≤ length places.old → Listed (held_by self.now) places.old places.new }
    {
        if places.len() < ROOM {
            return Err(ListRefusal::TooFewPlaces);
        }
        let held = self.numbers.as_slice();
        places[..held.len()].copy_from_slice(held);
        Ok(held.len())
    }
}
