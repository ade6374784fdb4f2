//! The words after the program's name, as the system gives them.
ghost use Rattle.std.specs.Prelude.{◌≡◌, IfErr};
ghost use Rattle.std.specs.Process.{exit_status};
ghost use Rattle.vme_program.specs.Words.{IsPlaced, outcome};
ghost use Rattle.vme_program.specs.declared.arguments.WordsFault.TheVariants.{NoMemory};

use crate::faults::report;
use std::alloc::{AllocError, AllocFailed};
use std::env::{Env, FillError};
use std::fmt;
use std::process::ExitCode;
use thiserror::Error;
use vme_escapes::Lines;

/// The room that a word gets at first, in bytes.
const ROOM: usize = 256;

/// Why the words could not be read.
#[derive(Debug, Drop, Error)]
pub enum WordsFault {
    /// F4: the word at this place, counted from 1, is not UTF-8.
    #[error("F4 word {0} is not UTF-8")]
    NotText(usize),
    #[error("F3 no memory")]
    NoMemory,
}

impl From<AllocError> for WordsFault {
    ghost from_gives = { λ _ f. f ≡ NoMemory };

    fn from(_: AllocError) -> Self {
        WordsFault::NoMemory
    }
}

impl<T: Drop> From<AllocFailed<T>> for WordsFault {
    ghost from_gives = { λ _ f. f ≡ NoMemory };

    fn from(_: AllocFailed<T>) -> Self {
        WordsFault::NoMemory
    }
}

/// What a request for the word at some place led to.
enum Outcome {
    /// The word has so many bytes.
    Word(usize),
    /// The last word stands before this place.
    End,
    /// The word has more bytes than it had room for. It is requested again with this room.
    Again(usize),
}

/// What the system's answer means, if the word had room for `room` bytes. A word of any length is
/// requested until it has enough room.
fn outcome_of(answer: Result<usize, FillError>, room: usize) -> Outcome
    ensures { result ≡ outcome answer room }
{
    match answer {
        Ok(count) => Outcome::Word(count),
        Err(FillError::NotPresent) => Outcome::End,
        Err(FillError::TooLong) => Outcome::Again(room.saturating_add(room)),
    }
}

/// The bytes of the word at this place; none after the last word.
///
/// # Errors
/// `AllocError` if memory runs out.
fn bytes_at(rt: &HostRuntime, place: usize) -> Result<Option<Vec<u8>>, AllocError> {
    let mut room = ROOM;
    for _ in 0..usize::BITS {
        let mut bytes = Vec::new(rt.alloc());
        bytes.resize(room, 0u8)?;
        match outcome_of(rt.arg(place, bytes.as_mut_slice()), room) {
            Outcome::Word(count) => {
                bytes.truncate(count);
                return Ok(Some(bytes));
            }
            Outcome::End => return Ok(None),
            Outcome::Again(more) => room = more,
        }
    }
    Err(AllocError)
}

/// The words after the program's name.
///
/// # Errors
/// F4 at the first word that is not UTF-8; F3 if memory runs out.
pub fn given(rt: &HostRuntime) -> Result<Vec<String>, WordsFault>
    ensures { IfErr result IsPlaced }
{
    let mut words = Vec::new(rt.alloc());
    for place in 1..usize::MAX {
        let Some(bytes) = bytes_at(rt, place)? else {
            break;
        };
        match String::from_utf8(bytes) {
            Ok(word) => words.push(word)?,
            Err(_) => return Err(WordsFault::NotText(place)),
        }
    }
    Ok(words)
}

/// Whether some word goes over several lines.
fn has_line_feed(words: &[&str]) -> bool {
    for word in words {
        if word.as_bytes().contains(&b'\n') {
            return true;
        }
    }
    false
}

/// Prints what is wrong with the words, or how they are used. It is one line if a word goes over
/// several. The exit status is 1.
pub(crate) fn report_words<D: fmt::Display + Drop>(
    rt: &HostRuntime,
    words: &[&str],
    error: D,
) -> ExitCode
    ensures { exit_status result ≡ 1 }
{
    if has_line_feed(words) {
        return report(rt, error);
    }
    let text = Lines(error);
    let _ = eprint!(rt; "{text}");
    ExitCode::FAILURE
}
