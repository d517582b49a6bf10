// How a link begins, and what it ends with: a row for each wrapper.
#![tactic(auto)]

mod begin;
mod finish;

pub use begin::begin_rows;
pub use finish::{count_wrappers, finish_rows, write_wrappers};
