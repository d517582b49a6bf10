// The whole job of a link: every call in its turn, over memory that is sized by the source.
#![tactic(auto)]

mod job;

pub use job::{Classified, classify};
