// Why a line tells nothing that can be done.
ghost use Rattle.std.specs.Prelude.{◌≡◌, Some};
ghost use Rattle.console.specs.declared.error.ReadError.TheVariants.{Memory};
ghost use Rattle.commands.specs.declared.error.ReadError.TheVariants.{Line};
ghost use Rattle.commands.specs.Complaints.{complaint};

use std::alloc::AllocError;
use std::error::Error;
use std::fmt;

// Why reading a line gives no command.
#[derive(Clone, Copy, Debug, PartialEq, Eq)]
pub enum ReadError {
    // Memory ran out, or the line itself is wrong: as the console that splits says it.
    Line(console::ReadError),
    // The command needs a book, and there is none.
    NoBook,
}

impl fmt::Display for ReadError {
    ghost output = { λ error. Some (complaint error) };

    fn fmt<W: fmt::Write>(&self, f: &mut fmt::Formatter<W>) -> fmt::Result {
        match self {
            ReadError::Line(error) => write!(f, "{error}"),
            ReadError::NoBook => write!(f, "no book"),
        }
    }
}

impl Error for ReadError {}

impl From<console::ReadError> for ReadError {
    ghost from_gives = { λ error r. r ≡ Line error };

    fn from(line: console::ReadError) -> ReadError {
        ReadError::Line(line)
    }
}

impl From<AllocError> for ReadError {
    ghost from_gives = { λ error r. r ≡ Line (Memory error) };

    fn from(error: AllocError) -> ReadError {
        ReadError::Line(console::ReadError::Memory(error))
    }
}
