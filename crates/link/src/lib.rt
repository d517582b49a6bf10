// The link: one call after another settles what each module is, over marks that the caller holds.
#![tactic(auto)]

mod calls;
mod stage;

pub use calls::Link;
pub use stage::{Call, Settled, Stage};
