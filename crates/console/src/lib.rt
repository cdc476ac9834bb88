// The console of the allocation book: it reads a line, does what it tells, and answers it.
#![tactic(auto)]

mod answer;
mod bearer;
mod command;
mod desk;
mod error;
mod numeral;
mod streams;
mod verb;
mod word;

pub use command::{Command, only, read, read_words};
pub use desk::Console;
pub use error::ReadError;
pub use numeral::number;
pub use streams::{serve, serve_with};
pub use word::words;
