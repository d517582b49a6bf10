// The commands of the program, as functions from words to a report, so that every run can be held to what it should say.
#![tactic(auto)]

mod ask;
mod dispatch;
mod errors;
mod files;
mod refused;
mod report;
mod sources;

pub use dispatch::run;
pub use errors::{CommandError, in_file};
pub use files::read_contents;
pub use refused::Refused;
pub use report::{Report, ToldRun};
pub use sources::{Contents, OpenSource};
