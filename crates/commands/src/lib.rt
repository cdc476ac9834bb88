// The commands of the allocation book: what a line of bytes tells.
#![tactic(auto)]

mod command;
mod error;
mod hex;
mod reading;
mod verb;

pub use command::Command;
pub use console::{number, words};
pub use error::ReadError;
pub use reading::read;
pub use verb::BasisName;
