//! Answers, written to the front of a place.

ghost use Rattle.std.specs.Prelude.{◌≡◌, ◌≤◌, length};
ghost use Rattle.jobs.specs.Answers.{answer_of, written};
ghost use Rattle.jobs.specs.Outcome.{put_in};

use crate::refusal::Refusal;
use crate::{LEAST_PLACE, Sector};

/// The mark of a refusal.
const REFUSAL: u8 = 1;

/// The mark of a sector.
const SECTOR: u8 = 2;

/// Writes an answer, and tells its length: a mark, the sector's length in two bytes, the first the higher, and the sector;
/// or a mark and the number of a refusal.
pub(crate) fn write_answer(
    outcome: Result<(), Refusal>,
    sector: &Sector,
    place: &mut [u8; LEAST_PLACE],
) -> usize
    ensures count { result ≡ length (answer_of (put_in sector.now outcome)) }
    ensures fits { result ≤ LEAST_PLACE }
    ensures place { place.new ≡ written (answer_of (put_in sector.now outcome)) place.old }
{
    match outcome {
        Ok(()) => {
            let size = sector.len();
            let [high, low] = (size as u16).to_be_bytes();
            place[..3].copy_from_slice(&[SECTOR, high, low]);
            place[3..3 + size].copy_from_slice(sector);
            3 + size
        }
        Err(refusal) => {
            place[..2].copy_from_slice(&[REFUSAL, refusal.number()]);
            2
        }
    }
}
