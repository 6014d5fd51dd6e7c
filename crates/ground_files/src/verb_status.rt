//! How a verb ends.

ghost use Rattle.std.specs.Prelude.{◌≡◌, MatchResult};
ghost use Rattle.ground_files.specs.Ends.{status_at};
ghost use Rattle.ground_files.specs.declared.verb_status.Status.TheVariants as statuses;

use std::alloc::AllocError;
use std::io;
use thiserror::Error;

/// How a verb ended. The numbers are the program's exit statuses, those of `vigil` where both have one.
#[derive(Clone, Copy, Debug, PartialEq, Eq)]
pub enum Status {
    Done = 0,
    WordsRefused = 1,
    FileRefused = 2,
    ScenarioRefused = 3,
    ReadFailed = 4,
    WriteFailed = 5,
    NoMemory = 6,
    /// Something came that isn't allowed, or logs differ.
    Unwanted = 10,
}

/// Why nothing more is made of an input.
#[derive(Debug, Drop, Error)]
pub enum Fault {
    #[error("it can't be read: {0}")]
    Read(io::Error),
    #[error("it can't be written: {0}")]
    Write(io::Error),
    #[error("memory ran out")]
    Memory(#[from] AllocError),
}

/// The status of a fault.
pub fn status_of(fault: &Fault) -> Status
    ensures { result ≡ status_at fault.now }
{
    match fault {
        Fault::Read(_) => Status::ReadFailed,
        Fault::Write(_) => Status::WriteFailed,
        Fault::Memory(_) => Status::NoMemory,
    }
}

/// Tells that an input can't be read, and answers the status.
pub fn tell_unread<R: Eprint>(rt: &R, name: &str, error: &io::Error) -> Status
    ensures { result ≡ statuses.ReadFailed }
{
    // There is no other place to tell it.
    let _told = eprintln!(rt; "{name}: it can't be read: {error}");
    Status::ReadFailed
}

/// Tells that an output can't be written, and answers the status.
pub fn tell_unwritten<R: Eprint>(rt: &R, name: &str, error: &io::Error) -> Status
    ensures { result ≡ statuses.WriteFailed }
{
    let _told = eprintln!(rt; "{name}: it can't be written: {error}");
    Status::WriteFailed
}

/// Tells a fault by the name of what it is about, and answers the status.
pub fn tell_fault<R: Eprint>(rt: &R, input: &str, output: &str, fault: &Fault) -> Status
    ensures { result ≡ status_at fault.now }
{
    match fault {
        Fault::Read(error) => tell_unread(rt, input, error),
        Fault::Write(error) => tell_unwritten(rt, output, error),
        Fault::Memory(_) => {
            let _told = eprintln!(rt; "{input}: memory ran out");
            Status::NoMemory
        }
    }
}

/// Tells that memory ran out, and answers the status.
pub fn tell_no_memory<R: Eprint>(rt: &R) -> Status
    ensures { result ≡ statuses.NoMemory }
{
    let _told = eprintln!(rt; "memory ran out");
    Status::NoMemory
}

/// The status of what was made, once its output is in its place.
pub fn status_made<R: Eprint>(
    rt: &R,
    output: &str,
    settled: io::Result<()>,
    status: Status,
) -> Status
    ensures { MatchResult settled (λ done. result ≡ status) (λ error. result
        ≡ statuses.WriteFailed) }
{
    match settled {
        Ok(()) => status,
        Err(error) => tell_unwritten(rt, output, &error),
    }
}
