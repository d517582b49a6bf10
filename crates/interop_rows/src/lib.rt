// The text form of interop rows: what observers recorded, what imports are written, and where modules ended up.
#![tactic(auto)]

mod errors;
mod read;
mod uses;

pub use errors::{Expected, RowsError};
pub use read::{InteropRows, read_rows};
pub use uses::{read_use, use_word};
