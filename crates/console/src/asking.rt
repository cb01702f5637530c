//! Asks a terminal for commands and tells it answers.

use crate::terminal::Terminal;
use commands::answer::Answer;
use commands::command::{Command, Wrong};
use commands::parse::{Reading, parse};
use std::alloc::Global;
use std::io;

/// A terminal, and the heap for what it asks and is told.
#[derive(Drop)]
pub struct Session<'a, T> {
    pub heap: Global,
    pub terminal: &'a mut T,
}

impl<T: Terminal> Session<'_, T> {
    /// Tells an answer, or what is wrong.
    pub fn tell(&mut self, answer: Result<Answer<Vec<u8>>, Wrong>) -> io::Result<()> {
        let answer = answer.unwrap_or_else(Answer::Wrong);
        let text = answer.to_string(self.heap)?;
        self.terminal.answer(text.as_str())
    }

    /// The command of a line. A file is loaded here, so that an image is one of bytes.
    fn read(&mut self, line: &[u8]) -> Reading {
        match parse(self.heap, line)? {
            Command::Load { size, path } => {
                let bytes = self
                    .terminal
                    .load(path.as_slice())
                    .ok_or(Wrong::NoSuchFile)?;
                Ok(Command::Image { size, bytes })
            }
            command => Ok(command),
        }
    }

    /// The next command. Help and what is wrong with a line are told here, and that there is an image, before what it replaces
    /// is let go.
    pub fn ask(&mut self) -> io::Result<Option<Command<Vec<u8>>>> {
        for _ in 0..u64::MAX {
            let Some(line) = self.terminal.next_line()? else {
                break;
            };
            match self.read(line.as_slice()) {
                Ok(Command::Help) => self.tell(Ok(Answer::Help))?,
                Ok(Command::Image { size, bytes }) => {
                    self.tell(Ok(Answer::Done))?;
                    return Ok(Some(Command::Image { size, bytes }));
                }
                Ok(command) => return Ok(Some(command)),
                Err(wrong) => self.tell(Err(wrong))?,
            }
        }
        Ok(None)
    }
}
