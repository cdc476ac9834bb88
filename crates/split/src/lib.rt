// Splitting a sum among bearers: the one splitting that serves every kind of bearer.
#![tactic(auto)]

mod bearer;
mod division;
mod limits;
mod reason;
mod refusal;
mod splitting;

pub use bearer::{Bearer, Stake};
pub use division::Division;
pub use limits::MOST_BEARERS;
pub use reason::Reason;
pub use refusal::Refusal;
pub use splitting::{explain, split};
