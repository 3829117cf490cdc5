ghost use Rattle.std.specs.Prelude.{◌≡◌, length, nat_lt, if◌then◌else◌};
ghost use Rattle.lagpage.specs.Answers.{answer_of, answer_with, buffer_after, done, no_room, put_if_room};

use crate::told::Told;
use std::alloc::AllocError;

/// The buffer has what is told at its front.
pub(crate) const DONE: u64 = 0;
/// The buffer has no room for it, and stays as it was.
const NO_ROOM: u64 = 1;
/// Memory was refused; the buffer stays as it was.
pub(crate) const NO_MEMORY: u64 = 2;

/// What came of a call.
#[repr(C)]
#[derive(Clone, Copy)]
pub struct Answer {
    /// `DONE`, `NO_ROOM` or `NO_MEMORY`.
    pub outcome: u64,
    /// The exit status of `lagtool`.
    pub status: u64,
    /// How many octets are printed.
    pub printed: u64,
    /// How many are said on standard error; they stand behind those.
    pub said: u64,
}

/// Whether a buffer has room for so many octets.
fn outcome_of(room: usize, count: usize) -> u64
    ensures { result ≡ (if nat_lt room count then no_room else done) }
{
    if room < count { NO_ROOM } else { DONE }
}

/// Writes octets at the front of a buffer, if it has room for all of them.
fn put_if_room(octets: &[u8], buffer: &mut [u8])
    ensures { buffer.new ≡ put_if_room octets.now buffer.old }
{
    if buffer.len() < octets.len() {
        return;
    }
    buffer[..octets.len()].copy_from_slice(octets);
}

/// The answer for what is told, where a buffer has so much room.
fn answer_with(room: usize, told: &Told) -> Answer
    ensures { result ≡ answer_with room told.now }
{
    let count = told.octets.len();
    Answer {
        outcome: outcome_of(room, count),
        status: u64::from(told.status),
        printed: told.printed as u64,
        said: count.saturating_sub(told.printed) as u64,
    }
}

/// Writes what is told at the front of a buffer, if that has room for all of it.
pub(crate) fn answered(told: &Result<Told, AllocError>, out: &mut [u8]) -> Answer
    ensures answer { result ≡ answer_of (length out.old) told.now }
    ensures buffer { out.new ≡ buffer_after out.old told.now }
{
    match told {
        Ok(told) => {
            let answer = answer_with(out.len(), told);
            put_if_room(&told.octets, out);
            answer
        }
        Err(_) => Answer {
            outcome: NO_MEMORY,
            status: 2,
            printed: 0,
            said: 0,
        },
    }
}
