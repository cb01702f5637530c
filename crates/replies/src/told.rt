ghost use Rattle.std.specs.Prelude.{◌≡◌};
ghost use Rattle.replies.specs.Told.{called, entered, faulted, reported, word_of, wrote};

use commands::answer::Answer;
use commands::names::CallWord;
use devices::fault::Fault;
use fault_lists::refusal::EnterRefusal;
use volumes::fault::{CallName, VolumeFault};
use volumes::phase::Phase;

fn word(call: CallName) -> CallWord
    ensures { result ≡ word_of call }
{
    match call {
        CallName::Open => CallWord::Open,
        CallName::Begin => CallWord::Begin,
        CallName::Step => CallWord::Step,
    }
}

/// What is told of open, begin and step.
pub fn called(answer: Result<(), VolumeFault>) -> Answer<Vec<u8>>
    ensures call_is_told { result ≡ called answer }
{
    match answer {
        Ok(()) => Answer::Done,
        Err(fault) => Answer::Refused {
            call: word(fault.call),
            number: fault.refusal.number(),
        },
    }
}

/// What is told of the entering of a fault.
// Stays: each refusal has its own words; `map_or_else` has the two closures that the arms are, in the other order.
pub fn entered(answer: Result<(), EnterRefusal>) -> Answer<Vec<u8>>
    ensures entering_is_told { result ≡ entered answer }
{
    match answer {
        Ok(()) => Answer::Done,
        Err(refusal) => Answer::Refused {
            call: CallWord::Fault,
            number: refusal.number(),
        },
    }
}

/// What is told of a refused read or write.
pub fn faulted(fault: Fault) -> Answer<Vec<u8>>
    ensures fault_is_told { result ≡ faulted fault }
{
    Answer::Faulted {
        number: fault.reason.number(),
        sector: fault.sector,
        depth: fault.depth,
    }
}

/// What is told of a write.
pub fn wrote(answer: Result<(), Fault>) -> Answer<Vec<u8>>
    ensures write_is_told { result ≡ wrote answer }
{
    match answer {
        Ok(()) => Answer::Done,
        Err(fault) => faulted(fault),
    }
}

/// What is told of a report.
pub fn reported(phase: Phase) -> Answer<Vec<u8>>
    ensures report_is_told { result ≡ reported phase }
{
    Answer::Reported {
        phase: phase.number(),
        mark: phase.mark(),
    }
}
