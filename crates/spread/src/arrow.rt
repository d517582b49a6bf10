// Arrows between places.

/// An arrow, by the numbers of the places at its ends.
#[derive(Clone, Copy)]
pub struct Arrow {
    pub from: u32,
    pub to: u32,
}
