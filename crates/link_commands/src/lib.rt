// The commands that classify a source, `link` and `dot`, as functions from words to a report.
#![tactic(auto)]

mod classified;
mod dispatch;

pub use dispatch::run;
