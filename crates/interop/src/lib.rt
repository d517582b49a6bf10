// Which `__toESM` modes an external module needs in a chunk, and whether a module in it reads the one of Node.
#![tactic(auto)]

mod check;
mod chunk_assignments;
mod external_import_interop;
mod rows;
mod uses;

pub use chunk_assignments::ChunkAssignments;
pub use external_import_interop::Question;
pub use rows::{ImportRow, ObserverRow, Specifier};
