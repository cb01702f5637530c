ghost use Rattle.std.specs.Prelude.{◌≡◌};
ghost use Rattle.volumes.specs.Phases.{phase_number, phase_mark};

/// What a volume is doing.
#[derive(Clone, Copy, PartialEq, Eq, Debug)]
pub enum Phase {
    /// It has no key yet.
    Closed,
    /// One key serves all sectors.
    Open,
    /// The key is being changed: the sectors below the mark have the new one.
    Sweeping(u32),
}

impl Phase {
    pub fn number(self) -> u8
        ensures { result ≡ phase_number self }
    {
        match self {
            Phase::Closed => 0,
            Phase::Open => 1,
            Phase::Sweeping(_) => 2,
        }
    }

    /// The mark of a sweep, 0 unless sweeping.
    pub fn mark(self) -> u32
        ensures { result ≡ phase_mark self }
    {
        match self {
            Phase::Closed | Phase::Open => 0,
            Phase::Sweeping(mark) => mark,
        }
    }
}
