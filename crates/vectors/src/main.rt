//! Works the cases of a table on standard input, and counts those that agree with the table's answers.
//!
//! A line `job PLACE RECORD ANSWER` is a job with so many bytes of place for its answer, record and answer in hexadecimal, or
//! `refused 14` for the answer. A script of the console begins with `script NAME` and ends with `end`; its lines `> COMMAND` and
//! `< ANSWER` come in turn. The line of each case that does not agree is
//! printed.

#![tactic(auto)]

use std::io;
use std::io::BufReader;
use texts::words::cut_word;

mod cases;
mod table;

use cases::Tally;
use table::Table;

fn run(rt: &HostRuntime) -> io::Result<()> {
    let heap = rt.alloc();
    let mut table = Table::new(heap, BufReader::new(heap, rt.stdin())?);
    let mut jobs = Tally::default();
    let mut scripts = Tally::default();
    for _ in 0..u64::MAX {
        let Some(line) = table.next_line()? else {
            break;
        };
        let place = table.place();
        let (word, rest) = cut_word(line.as_slice());
        match word {
            b"job" => jobs.count(rt, place, cases::job(heap, rest)?)?,
            b"script" => scripts.count(rt, place, cases::script(heap, &mut table)?)?,
            _ => println!(rt; "line {place} is no case")?,
        }
    }
    jobs.report(rt, "jobs")?;
    scripts.report(rt, "scripts")
}

fn main(rt: HostRuntime) -> io::Result<()> {
    run(&rt)
}
