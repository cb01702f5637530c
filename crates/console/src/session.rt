//! Serves the commands of a terminal: first without an image, then on an image with its fault list, then on a volume.

use crate::asking::Session;
use crate::served::{Nothing, Served};
use crate::terminal::Terminal;
use aes::Aes128;
use ciphers::BlockCipher;
use ciphers::mask::Mask;
use commands::answer::Answer;
use commands::command::Command;
use fault_lists::list::FaultList;
use heh::Heh;
use images::Image;
use modes::WideMode;
use records::{Cipher, Mode};
use std::alloc::{AllocError, Global};
use std::io;
use tet::Tet;
use volumes::volume::Volume;
use xtea::Xtea;

/// The sectors of an image, and the numbers that its fault list holds.
#[derive(Drop)]
struct Base {
    size: u32,
    bytes: Vec<u8>,
    faults: Vec<u32>,
}

impl Base {
    /// The image with its fault list.
    fn list(&mut self) -> FaultList<Image<'_>> {
        let mut list = FaultList::new(Image::new(self.bytes.as_mut_slice(), self.size));
        for sector in &self.faults {
            let _ = list.enter(*sector);
        }
        list
    }
}

/// The numbers that a fault list holds.
fn held(heap: Global, list: &FaultList<Image>) -> Result<Vec<u32>, AllocError> {
    // Stays: a fault list writes its numbers into its caller's places: a device has no heap.
    let mut places = [0; 64];
    let count = list.list(&mut places).unwrap_or(0);
    places.iter().copied().take(count).collect(heap)
}

impl<T: Terminal> Session<'_, T> {
    /// Serves commands, up to one that asks for another to serve.
    fn serve<S: Served>(&mut self, served: &mut S) -> io::Result<Option<Command<Vec<u8>>>> {
        for _ in 0..u64::MAX {
            let Some(command) = self.ask()? else {
                break;
            };
            match served.reply(self, &command)? {
                Some(reply) => self.tell(reply)?,
                None => return Ok(Some(command)),
            }
        }
        Ok(None)
    }

    /// Serves a new volume.
    fn serve_volume<M: WideMode>(
        &mut self,
        base: &mut Base,
        current: M,
        next: M,
    ) -> io::Result<Option<Command<Vec<u8>>>> {
        let mut volume = Volume::new(base.list(), current, next);
        self.tell(Ok(Answer::Done))?;
        self.serve(&mut volume)
    }

    fn serve_cipher<C: BlockCipher>(
        &mut self,
        base: &mut Base,
        mode: Mode,
    ) -> io::Result<Option<Command<Vec<u8>>>> {
        // Stays: each arm has another type, which a name of the line picks.
        match mode {
            Mode::Tet => self.serve_volume(base, Tet::<C>::new(), Tet::<C>::new()),
            Mode::Heh => self.serve_volume(base, Heh::<C>::new(), Heh::<C>::new()),
        }
    }

    fn serve_named(
        &mut self,
        base: &mut Base,
        mode: Mode,
        cipher: Cipher,
    ) -> io::Result<Option<Command<Vec<u8>>>> {
        // Stays: each arm has another type, which a name of the line picks.
        match cipher {
            Cipher::Aes128 => self.serve_cipher::<Aes128>(base, mode),
            Cipher::Xtea => self.serve_cipher::<Xtea>(base, mode),
            Cipher::Mask1 => self.serve_cipher::<Mask<u8>>(base, mode),
            Cipher::Mask8 => self.serve_cipher::<Mask<u64>>(base, mode),
            Cipher::Mask16 => self.serve_cipher::<Mask<u128>>(base, mode),
        }
    }

    /// Serves an image before there is a volume, and keeps its faults.
    fn serve_list(&mut self, base: &mut Base) -> io::Result<Option<Command<Vec<u8>>>> {
        let mut list = base.list();
        let ended = self.serve(&mut list)?;
        let faults = held(self.heap, &list)?;
        base.faults = faults;
        Ok(ended)
    }

    /// Serves an image and the volumes made on it.
    fn serve_image(&mut self, size: u32, bytes: Vec<u8>) -> io::Result<Option<Command<Vec<u8>>>> {
        let faults = Vec::new(self.heap);
        let mut base = Base {
            size,
            bytes,
            faults,
        };
        let mut ended = self.serve_list(&mut base)?;
        for _ in 0..u64::MAX {
            let Some(Command::Volume { mode, cipher }) = ended else {
                break;
            };
            ended = self.serve_named(&mut base, mode, cipher)?;
        }
        Ok(ended)
    }
}

/// Serves the commands of a terminal until there are no more lines.
pub fn run<T: Terminal>(heap: Global, terminal: &mut T) -> io::Result<()> {
    let mut session = Session { heap, terminal };
    let mut ended = session.serve(&mut Nothing)?;
    for _ in 0..u64::MAX {
        let Some(Command::Image { size, bytes }) = ended else {
            break;
        };
        ended = session.serve_image(size, bytes)?;
    }
    Ok(())
}
