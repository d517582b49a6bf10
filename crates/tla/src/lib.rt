// Which modules wait for a top-level await, and which one a `require` would have to wait for.
#![tactic(auto)]

mod await_rows;
mod compute_tla;
mod imports;
mod memory;
mod search;

pub use await_rows::{count_await_rows, write_await_rows, write_await_rows_once};
pub use compute_tla::{determine_awaiting, find_awaiting, mark_awaiting};
