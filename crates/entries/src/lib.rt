// Which entries lead to each module.
#![tactic(auto)]

mod reach;

pub use reach::{count_entries, determine_entries};
