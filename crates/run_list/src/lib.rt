// A list of link calls from begin to finish, over memory that is sized by the source.
#![tactic(auto)]

mod error;
mod lists;

pub use error::ListError;
pub use lists::{ListRun, Rows, run_job, run_list};
