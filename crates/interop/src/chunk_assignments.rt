// Where modules ended up.
ghost use Rattle.std.specs.Prelude.{◌≡◌};
ghost use Rattle.interop.specs.Chunks.{live_chunk};

/// The chunk of each module or none, and the chunks that were removed after that. A module past the end of the list
/// has none.
#[derive(Clone, Copy)]
pub struct ChunkAssignments<'a> {
    assigned: &'a [Option<u32>],
    removed: &'a [u32],
}

impl<'a> ChunkAssignments<'a> {
    pub fn new(assigned: &'a [Option<u32>], removed: &'a [u32]) -> ChunkAssignments<'a>
        ensures assigned { result.assigned.now ≡ assigned.now }
        ensures removed { result.removed.now ≡ removed.now }
    {
        ChunkAssignments { assigned, removed }
    }

    /// The chunk that the module is assigned to, unless that was removed: a removed chunk is not written.
    pub fn live_chunk(self, m: u32) -> Option<u32>
        ensures { result ≡ live_chunk self.entry m }
    {
        let chunk = (*self.assigned.get(m as usize)?)?;
        if self.removed.contains(&chunk) {
            return None;
        }
        Some(chunk)
    }
}
