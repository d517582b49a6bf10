// What a link comes to, as lines for people and tools, and as a graph for Graphviz.
#![tactic(auto)]

mod dot;
mod lines;

pub use dot::dot_text;
pub use lines::{LinkReport, link_report};
