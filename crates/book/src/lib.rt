// The book: a clearing house opens it before trading, and tells it what happens on a bad day.
#![tactic(auto)]

mod checks;
mod fault;
mod opening;
mod parts;
mod state;

pub use checks::RollCheck;
pub use fault::{Layer, OpenFault};
pub use opening::allocation_book_check;
pub use parts::{Outstanding, Period, Termination};
pub use state::Book;
