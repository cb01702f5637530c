//! One case of a table: does what it gives agree with the table's answer?

use crate::table::{Script, Table};
use console::session::run;
use jobs::refusal::PlaceFault;
use jobs::work;
use std::alloc::Global;
use std::io;
use texts::hexadecimal::bytes;
use texts::numbers::number;
use texts::words::cut_word;

/// How many cases there were, and how many agreed.
#[derive(Default, Drop)]
pub struct Tally {
    cases: u32,
    agreed: u32,
}

impl Tally {
    /// Counts a case, and prints it where it does not agree.
    pub fn count(&mut self, rt: &HostRuntime, line: u64, agrees: bool) -> io::Result<()> {
        self.cases = self.cases.saturating_add(1);
        if agrees {
            self.agreed = self.agreed.saturating_add(1);
            return Ok(());
        }
        println!(rt; "line {line} does not agree")
    }

    pub fn report(&self, rt: &HostRuntime, what: &str) -> io::Result<()> {
        let agreed = self.agreed;
        let cases = self.cases;
        println!(rt; "{what}: {agreed} of {cases} agree")
    }
}

/// Does the job, with so many bytes of place, give this answer? The answer is none where the place is to be refused.
fn agrees(heap: Global, place: u32, record: &[u8], wanted: Option<&[u8]>) -> io::Result<bool> {
    let mut answer = vec![in heap; 0u8; place as usize]?;
    Ok(match (work(record, answer.as_mut_slice()), wanted) {
        (Ok(count), Some(bytes)) => answer
            .as_slice()
            .get(..count)
            .is_some_and(|front| front == bytes),
        (Err(PlaceFault::Short), None) => true,
        _ => false,
    })
}

/// A job: the words behind `job` are the place, the record and the answer.
pub fn job(heap: Global, words: &[u8]) -> io::Result<bool> {
    let (place, rest) = cut_word(words);
    let (record, rest) = cut_word(rest);
    let (answer, _) = cut_word(rest);
    let Some(place) = number(place) else {
        return Ok(false);
    };
    let Some(record) = bytes(heap, record)? else {
        return Ok(false);
    };
    let answer = bytes(heap, answer)?;
    agrees(
        heap,
        place,
        record.as_slice(),
        answer.as_ref().map(|answer| answer.as_slice()),
    )
}

/// A script: its lines are those of the table up to `end`.
pub fn script(heap: Global, table: &mut Table) -> io::Result<bool> {
    let mut script = Script::new(table);
    run(heap, &mut script)?;
    Ok(script.agrees())
}
