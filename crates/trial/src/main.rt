//! A volume at the keyboard: a command a line on standard input, an answer a line on standard output.
//!
//! `help` names the commands. The language is `commands`, and what the commands do is `console`.

#![tactic(auto)]

use console::session::run;
use console::terminal::Terminal;
use std::alloc::Global;
use std::io::{BufRead, BufReader, Split, Stdin};
use std::str::from_utf8;
use std::{fs, io};

/// Standard input and output, and files.
#[derive(Drop)]
struct Keyboard<'a> {
    rt: &'a HostRuntime,
    lines: Split<BufReader<Stdin>>,
}

impl Terminal for Keyboard<'_> {
    fn next_line(&mut self) -> io::Result<Option<Vec<u8>>> {
        self.lines.next().transpose()
    }

    fn answer(&mut self, text: &str) -> io::Result<()> {
        self.rt.println(text)
    }

    fn progress(&mut self, done: u32, count: u32) -> io::Result<()> {
        let rt = self.rt;
        eprintln!(rt; "{done} of {count} steps")
    }

    fn load(&mut self, path: &[u8]) -> Option<Vec<u8>> {
        let path = from_utf8(path).ok()?;
        fs::read(self.rt, path).ok()
    }

    fn save(&mut self, path: &[u8], bytes: &[u8]) -> bool {
        from_utf8(path).is_ok_and(|path| fs::write(self.rt, path, bytes).is_ok())
    }
}

fn main(rt: HostRuntime) -> io::Result<()> {
    let heap = rt.alloc();
    let mut keyboard = Keyboard {
        rt: &rt,
        lines: BufReader::new(heap, rt.stdin())?.split(heap, b'\n'),
    };
    run(heap, &mut keyboard)
}
