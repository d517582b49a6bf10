//! Facts that spread along arrows: every place ends with the join of the starting facts that lead to it.
#![tactic(auto)]

mod arrow;
mod entry_set;
mod fact;
mod interop_use;
mod run;
mod yes_no;

pub use arrow::Arrow;
pub use entry_set::EntrySet;
pub use fact::Fact;
pub use interop_use::InteropUse;
pub use run::spread;
pub use yes_no::YesNo;
