// The words, numbers and flags of the text form.
#![tactic(auto)]

mod flags;
mod lines;
mod numbers;
mod words;

pub use flags::{has_flag, raise};
pub use lines::{LineError, TextError, end_line, owned_words, read_lines};
pub use numbers::{read_number, read_span};
pub use words::{Flag, Worded};
