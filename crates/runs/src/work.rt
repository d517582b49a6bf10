// What calls work with.
ghost use Rattle.std.specs.Prelude.{◌≡◌};
ghost use Rattle.runs.specs.Made.{places_of};

use spread::{Arrow, EntrySet, YesNo};

/// The slices that calls work with: of all but the arrows, one place for each module.
// No slice of structs: facts are spread over a slice of their own.
#[derive(Drop)]
pub struct Work<'a> {
    pub facts: &'a mut [YesNo],
    pub flags: &'a mut [YesNo],
    pub sets: &'a mut [EntrySet],
    pub ends: &'a mut [usize],
    pub found: &'a mut [Option<usize>],
    pub arrows: &'a mut [Arrow],
}
