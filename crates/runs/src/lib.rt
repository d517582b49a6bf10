// Lists of link calls, made one after another.
#![tactic(auto)]

mod calls;
mod finish;
mod work;

pub use calls::{one_run, run};
pub use finish::run_to_end;
pub use work::Work;
