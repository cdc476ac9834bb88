// Rows of records in places of a fixed number: what fills them, and the lemmas about sums, counts and rows that are filled.
#![tactic(auto)]

mod access;
mod counting;
mod filling;
mod making;
mod table;

pub use counting::count_where;
pub use filling::fill;
pub use table::Table;
