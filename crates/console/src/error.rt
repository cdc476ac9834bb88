// Why a line tells nothing that can be done.
ghost use Rattle.std.specs.Prelude.{◌≡◌, Some};
ghost use Rattle.console.specs.declared.error.ReadError.TheVariants.{Memory};
ghost use Rattle.console.specs.Complaints.{complaint};

use std::alloc::{AllocError, AllocFailed};
use std::error::Error;
use std::fmt;

// Why reading a line gives no command.
#[derive(Clone, Copy, Debug, PartialEq, Eq)]
pub enum ReadError {
    // Memory ran out before the line was read.
    Memory(AllocError),
    // The first word is no command, or the number of its words is wrong.
    BadCommand,
    // A word that is to be a number is none, or does not fit.
    BadNumber,
}

impl fmt::Display for ReadError {
    ghost output = { λ error. Some (complaint error) };

    fn fmt<W: fmt::Write>(&self, f: &mut fmt::Formatter<W>) -> fmt::Result {
        f.write_str(match self {
            ReadError::Memory(_) => "out of memory",
            ReadError::BadCommand => "bad command",
            ReadError::BadNumber => "bad number",
        })
    }
}

impl Error for ReadError {}

impl From<AllocError> for ReadError {
    ghost from_gives = { λ error r. r ≡ Memory error };

    fn from(error: AllocError) -> ReadError {
        ReadError::Memory(error)
    }
}

impl<T: Drop> From<AllocFailed<T>> for ReadError {
    ghost from_gives = { λ failed r. r ≡ Memory (record {}) };

    fn from(_failed: AllocFailed<T>) -> ReadError {
        ReadError::Memory(AllocError)
    }
}
