use devices::fault::Fault;
use volumes::fault::VolumeFault;
use volumes::phase::Phase;

/// A call on a volume with what it works on, and the place for its answer. A read puts the sector's bytes into the buffer of
/// its entry.
#[derive(Drop)]
pub enum Entry {
    Open {
        key: Vec<u8>,
        answer: Option<Result<(), VolumeFault>>,
    },
    Read {
        sector: u32,
        buffer: Vec<u8>,
        answer: Option<Result<(), Fault>>,
    },
    Write {
        sector: u32,
        bytes: Vec<u8>,
        answer: Option<Result<(), Fault>>,
    },
    Begin {
        key: Vec<u8>,
        answer: Option<Result<(), VolumeFault>>,
    },
    Step {
        answer: Option<Result<(), VolumeFault>>,
    },
    Report {
        answer: Option<Phase>,
    },
}
