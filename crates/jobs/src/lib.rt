//! Jobs: one record in, one answer out.
//!
//! `work` reads a record (`records`), keys the mode that it names over the cipher that it names (`tweak_modes`), ciphers the
//! sector and writes the answer. `answers` writes an answer, and `refusal` has the refusals. `specs/Outcome.antt` says what each
//! record gives, and `specs/Answers.antt` the bytes of its answer.

#![tactic(auto)]

ghost use Rattle.std.specs.Prelude.{◌≡◌, ◌≤◌, length, IfOk};
ghost use Rattle.records.specs.Views.{task_of};
ghost use Rattle.jobs.specs.Answers.{count, place_after};
ghost use Rattle.jobs.specs.Names.{cipher_of, mode_over};
ghost use Rattle.jobs.specs.Laws.{Returning};
ghost use Rattle.jobs.specs.Outcome.{given, outcome as outcome_of, put_in};

use crate::answers::write_answer;
use crate::refusal::{PlaceFault, Refusal};
use aes::Aes128;
use arrayvec::ArrayVec;
use ciphers::BlockCipher;
use ciphers::mask::Mask;
use heh::Heh;
use modes::ModeFault;
use records::{Cipher, Direction, Job, Mode};
use tet::Tet;
use tweak_modes::TweakMode;
use xtea::Xtea;

mod answers;
pub mod refusal;

/// The longest sector, in bytes.
const LONGEST_SECTOR: usize = 4096;

/// The least place for an answer, in bytes.
const LEAST_PLACE: usize = 4099;

/// A sector of a job. It is lent from call to call, since handing it on would copy all of its room.
type Sector = ArrayVec<u8, LONGEST_SECTOR>;

/// Puts the sector that a job gives with a mode in place of another.
fn cipher<M: TweakMode>(job: &Job<'_>, sector: &mut Sector) -> Result<(), ModeFault>
    ensures { put_in sector.new result ≡ given M.kind (task_of job.now) }
{
    let mut mode = M::blank();
    mode.key(job.key, job.sector.len())?;
    sector.clear();
    // The mode took the length, so the sector fits.
    sector.try_extend_from_slice(job.sector).unwrap();
    match job.direction {
        Direction::Encipher => mode.encipher_with_tweak(job.tweak, sector.as_mut_slice()),
        Direction::Decipher => mode.decipher_with_tweak(job.tweak, sector.as_mut_slice()),
    }
}

/// The same with the mode that the job names, over a cipher.
fn cipher_over<C: BlockCipher>(job: &Job<'_>, sector: &mut Sector) -> Result<(), ModeFault>
    ensures { put_in sector.new result ≡ given (mode_over job.now.mode C.BlockCipher.kind) (task_of job.now) }
{
    // Stays: each arm has another type, which a code of the record picks.
    match job.mode {
        Mode::Tet => cipher::<Tet<C>>(job, sector),
        Mode::Heh => cipher::<Heh<C>>(job, sector),
    }
}

/// The same with the cipher that the job names.
fn perform(job: &Job<'_>, sector: &mut Sector) -> Result<(), ModeFault>
    ensures { put_in sector.new result ≡ given (mode_over job.now.mode (cipher_of job.now.cipher)) (task_of job.now) }
{
    // Stays: each arm has another type, which a code of the record picks.
    match job.cipher {
        Cipher::Aes128 => cipher_over::<Aes128>(job, sector),
        Cipher::Xtea => cipher_over::<Xtea>(job, sector),
        Cipher::Mask1 => cipher_over::<Mask<u8>>(job, sector),
        Cipher::Mask8 => cipher_over::<Mask<u64>>(job, sector),
        Cipher::Mask16 => cipher_over::<Mask<u128>>(job, sector),
    }
}

/// Puts the sector that a record gives in place of another.
fn outcome(record: &[u8], sector: &mut Sector) -> Result<(), Refusal>
    ensures { put_in sector.new result ≡ outcome_of «record».now }
{
    let job = records::read(record)?;
    Ok(perform(&job, sector)?)
}

/// Works a record and writes its answer to the front of a place: the sector, or the number of a refusal. Tells how many
/// bytes were written; those past them stay. A place of fewer than 4,099 bytes is refused, and nothing is written.
pub fn work(record: &[u8], place: &mut [u8]) -> Result<usize, PlaceFault>
    ensures bytes_are_counted { result ≡ count «record».now place.old }
    ensures answer_is_written { place.new ≡ place_after «record».now place.old }
    ensures answer_fits { IfOk result (λ n. n ≤ length place.new) }
{
    let Some(front) = place.first_chunk_mut::<LEAST_PLACE>() else {
        return Err(PlaceFault::Short);
    };
    let mut sector = Sector::new();
    let found = outcome(record, &mut sector);
    Ok(write_answer(found, &sector, front))
}

/// Whatever the job: where its record gives a sector, a record of the other direction, with that sector, gives back the job's
/// own sector.
pub fn the_way_back_returns_the_sector()
    ensures returning { Returning }
{}
