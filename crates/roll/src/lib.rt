// The roll: participants and accounts as plain tables, with every field within its limits.
#![tactic(auto)]

mod access;
mod account;
mod coded;
mod fault;
mod field;
mod limits;
mod opening;
mod participant;
mod reading;
mod table;

pub use account::Account;
pub use coded::{Coded, with_code};
pub use fault::RollFault;
pub use field::FieldFault;
pub use participant::Participant;
pub use reading::read;
pub use table::Roll;
