// A source over rows in memory: module rows that each name their first record row and a count, and record rows.
#![tactic(auto)]

mod check;
mod opened;
mod rows;

pub use check::check_rows;
pub use opened::RowSource;
pub use rows::ModuleRow;
