ghost use Rattle.std.specs.Prelude.{◌≡◌, Some};
ghost use Rattle.commands.specs.Names.{verb_of, mode_of, cipher_of, call_word};

use records::{Cipher, Mode};
use std::fmt;

/// The first word of a command.
#[derive(Clone, Copy, PartialEq, Eq, Debug)]
pub enum Verb {
    Image,
    Load,
    Fault,
    Volume,
    Open,
    Read,
    Write,
    Begin,
    Step,
    Report,
    Show,
    Save,
    Help,
}

/// The commands that are refused by name.
#[derive(Clone, Copy, PartialEq, Eq, Debug)]
pub enum CallWord {
    Fault,
    Open,
    Begin,
    Step,
}

impl CallWord {
    pub fn word(self) -> &'static str
        ensures { result.now ≡ call_word self }
    {
        match self {
            CallWord::Fault => "fault",
            CallWord::Open => "open",
            CallWord::Begin => "begin",
            CallWord::Step => "step",
        }
    }
}

impl fmt::Display for CallWord {
    ghost output = { λ call. Some (call_word call) };

    fn fmt<W: fmt::Write>(&self, f: &mut fmt::Formatter<W>) -> fmt::Result {
        f.write_str(self.word())
    }
}

/// The command of a word.
// Stays: not `TryFrom`: what is wrong with a word is told by the caller, and an error type here would say nothing more than `None`.
pub fn verb_of(word: &[u8]) -> Option<Verb>
    ensures { result ≡ verb_of word.now }
{
    match word {
        b"image" => Some(Verb::Image),
        b"load" => Some(Verb::Load),
        b"fault" => Some(Verb::Fault),
        b"volume" => Some(Verb::Volume),
        b"open" => Some(Verb::Open),
        b"read" => Some(Verb::Read),
        b"write" => Some(Verb::Write),
        b"begin" => Some(Verb::Begin),
        b"step" => Some(Verb::Step),
        b"report" => Some(Verb::Report),
        b"show" => Some(Verb::Show),
        b"save" => Some(Verb::Save),
        b"help" => Some(Verb::Help),
        _ => None,
    }
}

/// The mode of a word.
pub fn mode_of(word: &[u8]) -> Option<Mode>
    ensures { result ≡ mode_of word.now }
{
    match word {
        b"tet" => Some(Mode::Tet),
        b"heh" => Some(Mode::Heh),
        _ => None,
    }
}

/// The cipher of a word.
pub fn cipher_of(word: &[u8]) -> Option<Cipher>
    ensures { result ≡ cipher_of word.now }
{
    match word {
        b"aes-128" => Some(Cipher::Aes128),
        b"xtea" => Some(Cipher::Xtea),
        b"mask-1" => Some(Cipher::Mask1),
        b"mask-8" => Some(Cipher::Mask8),
        b"mask-16" => Some(Cipher::Mask16),
        _ => None,
    }
}
