// The text form of a source: a table that people write and read.
#![tactic(auto)]

mod errors;
mod read;
mod write;

pub use errors::{Expected, TableError};
pub use read::{Table, read_table};
pub use write::write_table;
