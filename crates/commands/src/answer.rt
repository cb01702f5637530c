ghost use Rattle.std.specs.Prelude.{vec_items, Some};
ghost use Rattle.commands.specs.Answers.{text_of};

use crate::command::Wrong;
use crate::names::CallWord;
use std::fmt;
use texts::hexadecimal::Written;

/// What is answered to a line. `B` is what bytes are held in.
// Stays: numbers, as volumes and devices give them; their types would make this language know of both.
#[derive(Drop)]
pub enum Answer<B> {
    Done,
    Bytes(B),
    /// The call is refused with a number.
    Refused { call: CallWord, number: u8 },
    /// A read or a write is refused.
    Faulted { number: u8, sector: u32, depth: u8 },
    Reported { phase: u8, mark: u32 },
    /// The line is not understood.
    Wrong(Wrong),
    Help,
}

impl fmt::Display for Answer<Vec<u8>> {
    ghost output = { λ answer. Some (text_of vec_items answer) };

    fn fmt<W: fmt::Write>(&self, f: &mut fmt::Formatter<W>) -> fmt::Result {
        match self {
            Answer::Done => f.write_str("ok"),
            Answer::Bytes(bytes) => {
                let bytes = Written(bytes.as_slice());
                write!(f, "ok {bytes}")
            }
            Answer::Refused { call, number } => write!(f, "refused {call} {number}"),
            Answer::Faulted {
                number,
                sector,
                depth,
            } => write!(f, "fault {number} sector {sector} depth {depth}"),
            Answer::Reported { phase, mark } => write!(f, "report {phase} {mark}"),
            Answer::Wrong(wrong) => write!(f, "? {wrong}"),
            Answer::Help => f.write_str(
                "image SIZE HEX; load SIZE PATH; fault N; volume tet|heh aes-128|xtea|mask-1|mask-8|mask-16; open KEY; read N; write N HEX; begin KEY; step [COUNT]; report; show; save PATH; help",
            ),
        }
    }
}
