// How a link is asked for and how its answers are told, in words.
#![tactic(auto)]

mod asked;
mod lines;
mod rules;
mod words;

pub use asked::{LinkSwitch, LinkWords, PLAIN_OPTIONS, WordsError, read_link_words, with_option};
pub use lines::{AwaitLine, MarkLine, WrapperLine};
pub use rules::rule_words;
pub use words::{format_word, pass_word, read_format, read_pass, wrap_word};
