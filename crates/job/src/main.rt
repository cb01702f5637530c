//! Works one job record from standard input and writes its answer to standard output.

#![tactic(auto)]

ghost use Rattle.std.specs.Prelude.{◌≤◌, length, IfOk};

use anyhow::Context;
use jobs::work;
use std::io;
use std::io::{ErrorKind, Read, Write};

/// One byte more than the longest record, so that a longer one is seen and refused.
const MOST: usize = 16385;

/// The least place for an answer.
const PLACE: usize = 4099;

/// Fills a buffer as far as the input goes, and tells how many bytes there were.
// Stays: not `read_to_end`, which needs a heap and reads a packet by parts, of which the rest is lost.
fn fill<R: Read>(input: &mut R, buffer: &mut [u8]) -> io::Result<usize>
    ensures { IfOk result (λ n. n ≤ length buffer.new) }
{
    let mut filled = 0;
    for _ in 0..u64::MAX {
        match input.read(&mut buffer[filled..]) {
            Ok(0) => break,
            Ok(count) => filled += count,
            Err(error) if error.kind() == ErrorKind::Interrupted => {}
            Err(error) => return Err(error),
        }
    }
    Ok(filled)
}

fn run(rt: &HostRuntime) -> anyhow::Result<()> {
    let mut record = [0; MOST];
    let length = fill(&mut rt.stdin(), &mut record)?;
    let mut place = [0; PLACE];
    let count = work(&record[..length], &mut place).context("the place for the answer is short")?;
    rt.stdout().write_all(&place[..count])?;
    Ok(())
}

fn main(rt: HostRuntime) -> anyhow::Result<()> {
    run(&rt)
}
