// The console of the allocation book: it does what a line tells, and answers it.
#![tactic(auto)]

mod desk;
mod funds;
mod opening;
mod streams;

pub use desk::Console;
pub use streams::serve;
