// What the link settles of each module, and what it is asked with.
#![tactic(auto)]

mod front;
mod mark;
mod options;
mod rows;

pub use front::write_front;
pub use mark::Mark;
pub use options::{LinkOptions, OutputFormat};
pub use rows::{AwaitRow, Helper, MarkRow, WrapKind, WrapperRow};
