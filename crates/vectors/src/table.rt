//! The lines of a table, and a script of the table as a terminal.

use console::terminal::Terminal;
use std::alloc::Global;
use std::io;
use std::io::{BufRead, BufReader, Split, Stdin};

/// The lines that are still to come.
#[derive(Drop)]
pub struct Table {
    lines: Split<BufReader<Stdin>>,
    place: u64,
}

impl Table {
    pub fn new(heap: Global, input: BufReader<Stdin>) -> Table {
        Table {
            lines: input.split(heap, b'\n'),
            place: 0,
        }
    }

    /// The next line, where there is one.
    pub fn next_line(&mut self) -> io::Result<Option<Vec<u8>>> {
        self.place = self.place.saturating_add(1);
        self.lines.next().transpose()
    }

    /// The number of the line that came last.
    pub fn place(&self) -> u64 {
        self.place
    }
}

/// The lines of one script: its commands are read, and its answers compared.
#[derive(Drop)]
pub struct Script<'a> {
    table: &'a mut Table,
    agrees: bool,
}

impl<'a> Script<'a> {
    pub fn new(table: &'a mut Table) -> Script<'a> {
        Script {
            table,
            agrees: true,
        }
    }

    /// Did all answers agree so far?
    pub fn agrees(&self) -> bool {
        self.agrees
    }
}

impl Terminal for Script<'_> {
    fn next_line(&mut self) -> io::Result<Option<Vec<u8>>> {
        let Some(mut line) = self.table.next_line()? else {
            return Ok(None);
        };
        if !line.starts_with(b"> ") {
            return Ok(None);
        }
        line.drain(..2);
        Ok(Some(line))
    }

    fn answer(&mut self, text: &str) -> io::Result<()> {
        let line = self.table.next_line()?;
        let told = line
            .as_ref()
            .and_then(|line| line.as_slice().strip_prefix(b"< "));
        self.agrees &= told == Some(text.as_bytes());
        Ok(())
    }

    fn progress(&mut self, _done: u32, _count: u32) -> io::Result<()> {
        Ok(())
    }

    /// A script of the table reads no files.
    fn load(&mut self, _path: &[u8]) -> Option<Vec<u8>> {
        None
    }

    fn save(&mut self, _path: &[u8], _bytes: &[u8]) -> bool {
        false
    }
}
