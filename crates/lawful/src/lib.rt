// The checks that every link call makes of its source and of what it is lent, in their order.
#![tactic(auto)]

mod check;
mod records;

pub use check::{Lent, check_source};
