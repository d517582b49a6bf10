// Which modules' names are known only when they have run.
#![tactic(auto)]

mod star;

pub use star::determine_dynamic_exports;
