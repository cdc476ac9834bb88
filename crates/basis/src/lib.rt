// What a participant weighs, what its ceiling is, and whether overnight losses are carried.
#![tactic(auto)]

mod basis;
mod commitment;

pub use basis::Basis;
pub use commitment::Commitment;
