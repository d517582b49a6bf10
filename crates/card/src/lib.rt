// The card: an image of modules and their records, checked and read in place.
#![tactic(auto)]

mod bytes;
mod check;
mod fields;
mod image;

pub use check::{card_fault, check_card};
pub use image::CardSource;
