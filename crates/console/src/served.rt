//! What answers commands: nothing yet, an image with its fault list, or a volume.

use crate::asking::Session;
use crate::terminal::Terminal;
use commands::answer::Answer;
use commands::command::{Command, Wrong};
use fault_lists::list::FaultList;
use images::Image;
use modes::WideMode;
use replies::calls;
use replies::told::entered;
use std::alloc::Global;
use std::io;
use volumes::volume::Volume;

/// After how many steps progress is told.
const STRIDE: u32 = 65536;

/// What is told of a command, or what is wrong with it.
// Stays: what is wrong with a command is told and the session goes on; an error of the terminal, around it, ends it.
pub type Reply = Result<Answer<Vec<u8>>, Wrong>;

/// What serves commands.
pub trait Served {
    /// The reply to a command, or none where the command asks for another to serve.
    fn reply<T: Terminal>(
        &mut self,
        session: &mut Session<'_, T>,
        command: &Command<Vec<u8>>,
    ) -> io::Result<Option<Reply>>;
}

fn shown(heap: Global, bytes: &[u8]) -> Reply {
    let bytes = Vec::from_slice(heap, bytes)?;
    Ok(Answer::Bytes(bytes))
}

fn save<T: Terminal>(terminal: &mut T, path: &[u8], bytes: &[u8]) -> Reply {
    if terminal.save(path, bytes) {
        Ok(Answer::Done)
    } else {
        Err(Wrong::NotSaved)
    }
}

/// No image yet.
#[derive(Drop)]
pub struct Nothing;

impl Served for Nothing {
    fn reply<T: Terminal>(
        &mut self,
        _session: &mut Session<'_, T>,
        command: &Command<Vec<u8>>,
    ) -> io::Result<Option<Reply>> {
        match command {
            Command::Image { .. } => Ok(None),
            _ => Ok(Some(Err(Wrong::NoImage))),
        }
    }
}

impl Served for FaultList<Image<'_>> {
    fn reply<T: Terminal>(
        &mut self,
        session: &mut Session<'_, T>,
        command: &Command<Vec<u8>>,
    ) -> io::Result<Option<Reply>> {
        let reply = match command {
            Command::Image { .. } | Command::Volume { .. } => return Ok(None),
            Command::Fault { sector } => Ok(entered(self.enter(*sector))),
            Command::Show => shown(session.heap, self.device().bytes()),
            Command::Save { path } => {
                save(session.terminal, path.as_slice(), self.device().bytes())
            }
            _ => Err(Wrong::NoVolume),
        };
        Ok(Some(reply))
    }
}

fn stored<'v, M: WideMode>(volume: &'v Volume<FaultList<Image>, M>) -> &'v [u8] {
    volume.device().device().bytes()
}

/// Makes steps, and tells the progress of many.
fn step<T: Terminal, M: WideMode>(
    terminal: &mut T,
    volume: &mut Volume<FaultList<Image>, M>,
    count: u32,
) -> io::Result<Answer<Vec<u8>>> {
    let strides = count.saturating_sub(1) / STRIDE;
    for stride in 0..strides {
        match calls::step(volume, STRIDE) {
            Answer::Done => {}
            other => return Ok(other),
        }
        terminal.progress((stride + 1) * STRIDE, count)?;
    }
    Ok(calls::step(volume, count - strides * STRIDE))
}

impl<M: WideMode> Served for Volume<FaultList<Image<'_>>, M> {
    fn reply<T: Terminal>(
        &mut self,
        session: &mut Session<'_, T>,
        command: &Command<Vec<u8>>,
    ) -> io::Result<Option<Reply>> {
        let reply = match command {
            Command::Image { .. } | Command::Volume { .. } => return Ok(None),
            Command::Open { key } => Ok(calls::open(self, key.as_slice())),
            Command::Read { sector } => {
                calls::read(session.heap, self, *sector).map_err(Wrong::from)
            }
            Command::Write { sector, bytes } => Ok(calls::write(self, *sector, bytes.as_slice())),
            Command::Begin { key } => Ok(calls::begin(self, key.as_slice())),
            Command::Step { count } => Ok(step(session.terminal, self, *count)?),
            Command::Report => Ok(calls::report(self)),
            Command::Show => shown(session.heap, stored(self)),
            Command::Save { path } => save(session.terminal, path.as_slice(), stored(self)),
            _ => Err(Wrong::FaultAfterVolume),
        };
        Ok(Some(reply))
    }
}
