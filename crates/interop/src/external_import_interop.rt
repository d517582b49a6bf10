// What an external module that is required by a chunk has to be wrapped for: `__toESM(require("winch"), 1)` serves modules
// that Node.js takes for ESM, `__toESM(require("winch"))` the others.
ghost use Rattle.std.specs.Prelude.{◌≡◌, true, ◌⊎◌, ◌↔◌};
ghost use Rattle.source.specs.Meaning.{module_at};
ghost use Rattle.interop.specs.Checks.{observers_verdict, imports_verdict, rows_verdict};
ghost use Rattle.interop.specs.Interop.{could_be_in, counts, is_node_esm, needs_interop, observed, written, node_observer, node_importer, recorded_use_of, modes_of, reader_of, recorded_use_answer, modes_answer, reader_answer};
ghost use Rattle.interop.specs.Joins.{all_uses, any};
ghost use Rattle.interop.specs.Orders.{OfRows, OfBothRows};
ghost use Rattle.interop.specs.Tells.{Observed, Written, NodeObserved, NodeWritten, Together};

use crate::check::check_each;
use crate::chunk_assignments::ChunkAssignments;
use crate::rows::{ImportRow, ObserverRow, Specifier};
use crate::uses::joined_uses;
use faults::Fault;
use source::{Module, ModuleSource};
use spread::{Fact, InteropUse};

/// What is asked about: an external module, by its namespace, in a chunk, by the rows of observers.
#[derive(Drop)]
pub struct Question<'a, S: ModuleSource> {
    pub source: &'a S,
    pub chunks: ChunkAssignments<'a>,
    pub observers: &'a [ObserverRow],
    pub namespace: u32,
    pub chunk: u32,
}

// `import { hoist } from 'winch';` reads the object as `require` gives it.
fn needs_interop(specifier: Specifier) -> bool
    ensures { result ≡ needs_interop specifier }
{
    matches!(specifier, Specifier::Namespace | Specifier::Default)
}

// A module without a live chunk could be written anywhere, so every chunk has to serve it.
fn could_be_in(live: Option<u32>, chunk: u32) -> bool
    ensures { result ≡ could_be_in live chunk }
{
    live.is_none_or(|live| live == chunk)
}

impl<'a, S: ModuleSource> Question<'a, S> {
    fn counts(&self, row: &ObserverRow) -> bool
        ensures { result ≡ counts self.now.chunks self.now.namespace self.now.chunk row.now }
    {
        row.namespace == self.namespace
            && could_be_in(self.chunks.live_chunk(row.observer), self.chunk)
    }

    fn is_node_esm(&self, m: u32) -> bool
        ensures { result ≡ is_node_esm (module_at (S.meaning self.now.source.now) m) }
    {
        matches!(self.source.module(m as usize), Module::Normal(normal) if normal.node_esm)
    }

    fn observed_use(&self, row: &ObserverRow) -> Option<InteropUse>
        ensures { result ≡ observed self.now.chunks self.now.namespace self.now.chunk row.now }
    {
        self.counts(row).then_some(row.uses)
    }

    fn written_use(&self, row: &ImportRow) -> Option<InteropUse>
        ensures { result ≡ written (S.meaning self.now.source.now) row.now }
    {
        if !needs_interop(row.specifier) {
            return None;
        }
        let node = self.is_node_esm(row.importer);
        Some(InteropUse {
            node,
            non_node: !node,
        })
    }

    fn observed_uses(&self) -> Option<InteropUse>
        ensures { result ≡ recorded_use_of self.now.chunks self.now.namespace self.now.chunk self.now.observers.now }
    {
        joined_uses(self.observers, |row| self.observed_use(row))
    }

    fn written_uses(&self, imports: &[ImportRow]) -> Option<InteropUse>
        ensures { result ≡ all_uses (written (S.meaning self.now.source.now)) imports.now }
    {
        joined_uses(imports, |row| self.written_use(row))
    }

    fn has_node_observer(&self) -> bool
        ensures { result ≡ any (node_observer (S.meaning self.now.source.now) self.now.chunks self.now.namespace self.now.chunk) self.now.observers.now }
    {
        self.observers
            .iter()
            .any(|row| self.counts(row) && self.is_node_esm(row.observer))
    }

    fn has_node_importer(&self, imports: &[ImportRow]) -> bool
        ensures { result ≡ any (node_importer (S.meaning self.now.source.now)) imports.now }
    {
        imports.iter().any(|row| needs_interop(row.specifier) && self.is_node_esm(row.importer))
    }

    fn check_observers(&self) -> Result<(), Fault>
        ensures { result ≡ observers_verdict (S.meaning self.now.source.now) self.now.observers.now }
    {
        check_each(self.source, self.observers, |row| row.observer)
    }

    fn check_imports(&self, imports: &[ImportRow]) -> Result<(), Fault>
        ensures { result ≡ imports_verdict (S.meaning self.now.source.now) imports.now }
    {
        check_each(self.source, imports, |row| row.importer)
    }

    // Observer rows before import rows, those of every namespace.
    fn check_rows(&self, imports: &[ImportRow]) -> Result<(), Fault>
        ensures { result ≡ rows_verdict (S.meaning self.now.source.now) self.now.observers.now imports.now }
    {
        self.check_observers()?; // Where this refuses, no import row is looked at.
        self.check_imports(imports)
    }

    /// What the namespace was seen to be used for by modules that could be in the chunk; none where there is no such module.
    #[tactic(auto, using(crate::proofs::Tells::recorded_use_tells, crate::proofs::Orders::recorded_use_of_rows))]
    pub fn recorded_use(&self) -> Result<Option<InteropUse>, Fault>
        ensures answer { result ≡ recorded_use_answer (S.meaning self.now.source.now) self.now.chunks self.now.namespace self.now.chunk self.now.observers.now }
        ensures tells { Together (Observed self.now.chunks self.now.namespace self.now.chunk self.now.observers.now) (recorded_use_of self.now.chunks self.now.namespace self.now.chunk self.now.observers.now) }
        ensures rows { OfRows (recorded_use_answer (S.meaning self.now.source.now) self.now.chunks self.now.namespace self.now.chunk) }
    {
        self.check_observers()?;
        Ok(self.observed_uses())
    }

    /// What the chunk has to wrap the external module for: its recorded use and the imports that are written in the chunk.
    #[tactic(auto, using(crate::proofs::Tells::modes_tell, crate::proofs::Orders::modes_of_rows))]
    pub fn modes(&self, imports: &[ImportRow]) -> Result<Option<InteropUse>, Fault>
        ensures answer { result ≡ modes_answer (S.meaning self.now.source.now) self.now.chunks self.now.namespace self.now.chunk self.now.observers.now imports.now }
        ensures tells { Together (λ u. Observed self.now.chunks self.now.namespace self.now.chunk self.now.observers.now u ⊎ Written (S.meaning self.now.source.now) imports.now u) (modes_of (S.meaning self.now.source.now) self.now.chunks self.now.namespace self.now.chunk self.now.observers.now imports.now) }
        ensures rows { OfBothRows (modes_answer (S.meaning self.now.source.now) self.now.chunks self.now.namespace self.now.chunk) }
    {
        self.check_rows(imports)?;
        Ok(self.observed_uses().joined(self.written_uses(imports)))
    }

    /// Whether a module that could be in the chunk reads the external module as Node.js does: the use that was recorded tells
    /// how an import was written, which can be in another module than the one that reads.
    #[tactic(auto, using(crate::proofs::Tells::reader_tells, crate::proofs::Orders::reader_of_rows))]
    pub fn reader(&self, imports: &[ImportRow]) -> Result<bool, Fault>
        ensures answer { result ≡ reader_answer (S.meaning self.now.source.now) self.now.chunks self.now.namespace self.now.chunk self.now.observers.now imports.now }
        ensures tells { (reader_of (S.meaning self.now.source.now) self.now.chunks self.now.namespace self.now.chunk self.now.observers.now imports.now ≡ true) ↔ (NodeObserved (S.meaning self.now.source.now) self.now.chunks self.now.namespace self.now.chunk self.now.observers.now ⊎ NodeWritten (S.meaning self.now.source.now) imports.now) }
        ensures rows { OfBothRows (reader_answer (S.meaning self.now.source.now) self.now.chunks self.now.namespace self.now.chunk) }
    {
        self.check_rows(imports)?;
        Ok(self.has_node_observer() || self.has_node_importer(imports))
    }
}
