// Rows in code: eight term numbers, 0 for unbound.
#![tactic(auto)]

mod joins;
mod order;
mod row;

pub use joins::{blank, compatible, merge, numbers_are_exact, same};
pub use order::{ascending, rows_are_ordered};
pub use row::Row;
