ghost use Rattle.std.specs.Prelude.{◌≡◌, Some};
ghost use Rattle.commands.specs.Answers.{wrong_text};
ghost use Rattle.commands.specs.declared.command.Wrong.TheVariants.{NoMemory};

use records::{Cipher, Mode};
use std::alloc::AllocError;
use std::error::Error;
use std::fmt;

/// What a line asks for. `B` is what bytes and paths are held in.
#[derive(Drop)]
pub enum Command<B> {
    /// A device over these bytes, with sectors of `size`.
    Image { size: u32, bytes: B },
    /// A device over a file's bytes.
    Load { size: u32, path: B },
    /// A sector entered into the fault list.
    Fault { sector: u32 },
    /// A closed volume on the fault list.
    Volume { mode: Mode, cipher: Cipher },
    Open { key: B },
    Read { sector: u32 },
    Write { sector: u32, bytes: B },
    Begin { key: B },
    Step { count: u32 },
    Report,
    /// The bytes as they are stored.
    Show,
    Save { path: B },
    Help,
}

/// What is wrong with a line.
#[derive(Clone, Copy, PartialEq, Eq, Debug)]
pub enum Wrong {
    NoSuchCommand,
    WrongWords,
    NotANumber,
    NotHexadecimal,
    NoSuchMode,
    NoSuchCipher,
    NoImage,
    NoVolume,
    FaultAfterVolume,
    NoSuchFile,
    NotSaved,
    NoMemory,
}

impl Wrong {
    pub fn message(self) -> &'static str
        ensures { result.now ≡ wrong_text self }
    {
        match self {
            Wrong::NoSuchCommand => "no such command; try help",
            Wrong::WrongWords => "too few words or too many",
            Wrong::NotANumber => "not a number below 4294967296",
            Wrong::NotHexadecimal => "not bytes in hexadecimal",
            Wrong::NoSuchMode => "the modes are tet and heh",
            Wrong::NoSuchCipher => "the ciphers are aes-128, xtea, mask-1, mask-8 and mask-16",
            Wrong::NoImage => "there is no image",
            Wrong::NoVolume => "there is no volume",
            Wrong::FaultAfterVolume => "faults come before the volume",
            Wrong::NoSuchFile => "the file cannot be read",
            Wrong::NotSaved => "the file cannot be written",
            Wrong::NoMemory => "there is not enough memory",
        }
    }
}

impl fmt::Display for Wrong {
    ghost output = { λ wrong. Some (wrong_text wrong) };

    fn fmt<W: fmt::Write>(&self, f: &mut fmt::Formatter<W>) -> fmt::Result {
        f.write_str(self.message())
    }
}

impl Error for Wrong {}

impl From<AllocError> for Wrong {
    ghost from_gives = { λ _ wrong. wrong ≡ NoMemory };

    fn from(_error: AllocError) -> Wrong {
        Self::NoMemory
    }
}
