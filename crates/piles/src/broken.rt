ghost use Rattle.std.specs.Prelude.{◌≡◌};
ghost use Rattle.piles.specs.Broken.{broken_of, sounds};

use devices::device::SectorDevice;
use devices::fault::Fault;

/// A device of another make: each of its sectors has the same standing fault.
#[derive(Drop)]
pub struct Broken {
    count: u32,
    fault: Fault,
}

impl Broken {
    pub fn new(count: u32, fault: Fault) -> Broken
        ensures { broken_of result.count result.fault ≡ broken_of count fault }
    {
        Broken { count, fault }
    }
}

impl SectorDevice for Broken {
    ghost meaning = { λ b. broken_of b.count b.fault };

    ghost sound = { λ b. sounds b.count b.fault };

    fn size(&self) -> u32 {
        1
    }

    fn count(&self) -> u32 {
        self.count
    }

    fn read(&mut self, sector: u32, buffer: &mut [u8]) -> Result<(), Fault> {
        self.admit(sector, buffer.len())?;
        Err(self.fault)
    }

    fn write(&mut self, sector: u32, buffer: &[u8]) -> Result<(), Fault> {
        self.admit(sector, buffer.len())?;
        Err(self.fault)
    }
}
