// Which modules run inside a wrapper, and which are run by a `require`.
#![tactic(auto)]

mod wraps;

pub use wraps::wrap_modules;
