ghost use Rattle.std.specs.Prelude.{◌≡◌, vec_items};
ghost use Rattle.std.specs.Option.{ok_or};
ghost use Rattle.texts.specs.Numbers.{number_of};
ghost use Rattle.texts.specs.Hexadecimal.{bytes_of};
ghost use Rattle.commands.specs.Commands.{bare, with_one, with_two, with_words, with_rest, parsed, listed, reading, ReadAs};
ghost use Rattle.commands.specs.declared.command.Wrong.TheVariants.{NotANumber, NotHexadecimal};

use crate::command::{Command, Wrong};
use crate::names::{Verb, cipher_of, mode_of, verb_of};
use std::alloc::Global;
use texts::hexadecimal::bytes;
use texts::numbers::number;
use texts::words::cut_word;

/// The command of a line, or what is wrong with it.
pub type Reading = Result<Command<Vec<u8>>, Wrong>;

/// A word that must be a number.
fn needed_number(word: &[u8]) -> Result<u32, Wrong>
    ensures { result ≡ ok_or (number_of word.now) NotANumber }
{
    number(word).ok_or(Wrong::NotANumber)
}

/// A word that must be bytes.
fn needed_bytes(heap: Global, word: &[u8]) -> Result<Vec<u8>, Wrong>
    ensures { ReadAs vec_items result (ok_or (bytes_of word.now) NotHexadecimal) }
{
    bytes(heap, word)?.ok_or(Wrong::NotHexadecimal)
}

fn bare(verb: Verb) -> Reading
    ensures { reading (listed vec_items) result ≡ bare verb }
{
    match verb {
        Verb::Step => Ok(Command::Step { count: 1 }),
        Verb::Report => Ok(Command::Report),
        Verb::Show => Ok(Command::Show),
        Verb::Help => Ok(Command::Help),
        _ => Err(Wrong::WrongWords),
    }
}

// Stays: heap and verb go through four functions; a struct of the two would say no more of them.
fn with_one(heap: Global, verb: Verb, word: &[u8]) -> Reading
    ensures { ReadAs (listed vec_items) result (with_one verb word.now) }
{
    match verb {
        Verb::Fault => {
            let sector = needed_number(word)?;
            Ok(Command::Fault { sector })
        }
        Verb::Read => {
            let sector = needed_number(word)?;
            Ok(Command::Read { sector })
        }
        Verb::Step => {
            let count = needed_number(word)?;
            Ok(Command::Step { count })
        }
        Verb::Open => {
            let key = needed_bytes(heap, word)?;
            Ok(Command::Open { key })
        }
        Verb::Begin => {
            let key = needed_bytes(heap, word)?;
            Ok(Command::Begin { key })
        }
        Verb::Save => {
            let path = Vec::from_slice(heap, word)?;
            Ok(Command::Save { path })
        }
        _ => Err(Wrong::WrongWords),
    }
}

fn with_two(heap: Global, verb: Verb, first: &[u8], second: &[u8]) -> Reading
    ensures { ReadAs (listed vec_items) result (with_two verb first.now second.now) }
{
    match verb {
        Verb::Image => {
            let size = needed_number(first)?;
            let bytes = needed_bytes(heap, second)?;
            Ok(Command::Image { size, bytes })
        }
        Verb::Load => {
            let size = needed_number(first)?;
            let path = Vec::from_slice(heap, second)?;
            Ok(Command::Load { size, path })
        }
        Verb::Volume => {
            let mode = mode_of(first).ok_or(Wrong::NoSuchMode)?;
            let cipher = cipher_of(second).ok_or(Wrong::NoSuchCipher)?;
            Ok(Command::Volume { mode, cipher })
        }
        Verb::Write => {
            let sector = needed_number(first)?;
            let bytes = needed_bytes(heap, second)?;
            Ok(Command::Write { sector, bytes })
        }
        _ => Err(Wrong::WrongWords),
    }
}

fn with_words(heap: Global, verb: Verb, first: &[u8], second: &[u8], more: &[u8]) -> Reading
    ensures { ReadAs (listed vec_items) result (with_words verb first.now second.now more.now) }
{
    if first.is_empty() {
        bare(verb)
    } else if second.is_empty() {
        with_one(heap, verb, first)
    } else if more.is_empty() {
        with_two(heap, verb, first, second)
    } else {
        Err(Wrong::WrongWords)
    }
}

fn with_rest(heap: Global, verb: Verb, rest: &[u8]) -> Reading
    ensures { ReadAs (listed vec_items) result (with_rest verb rest.now) }
{
    let (first, rest) = cut_word(rest);
    let (second, rest) = cut_word(rest);
    let (more, _) = cut_word(rest);
    with_words(heap, verb, first, second, more)
}

/// Reads a line. Where there is no memory for what it reads as, that is what is wrong.
pub fn parse(heap: Global, line: &[u8]) -> Reading
    ensures line_is_read { ReadAs (listed vec_items) result (parsed line.now) }
{
    let (word, rest) = cut_word(line);
    let verb = verb_of(word).ok_or(Wrong::NoSuchCommand)?;
    with_rest(heap, verb, rest)
}
