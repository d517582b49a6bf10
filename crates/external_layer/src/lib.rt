// A source with some of its modules made external.
#![tactic(auto)]

ghost use Rattle.std.specs.Prelude.{◌≡◌, []};
ghost use Rattle.external_layer.specs.Layers.{held_in, layered, hold_answer, hold_after};
ghost use Rattle.external_layer.specs.Masks.{layered_proper};

use arrayvec::ArrayVec;
use faults::{Fault, Layer, Refusal};
use source::{ImportKind, ImportRecord, Module, ModuleSource, no_record};

/// How many different modules a layer can hold.
const SEATS: usize = 64;

/// The source below, with up to 64 modules external. Layers pile: a layer is a source too.
#[derive(Drop)]
pub struct ExternalLayer<S> {
    below: S,
    held: ArrayVec<u32, SEATS>,
}

impl<S> ExternalLayer<S> {
    /// A layer that holds no module.
    pub fn new(below: S) -> ExternalLayer<S>
        ensures below { result.below ≡ below }
        ensures held { result.held.items ≡ [] }
    {
        ExternalLayer {
            below,
            held: ArrayVec::new(),
        }
    }

    /// Whether the layer makes the module `m` external.
    pub fn holds(&self, m: usize) -> bool
        ensures { result ≡ held_in self.now.held.items m }
    {
        self.held.iter().any(|&number| number as usize == m)
    }

    /// Makes the module `number` external. One that is held takes no second seat; a 65th is refused and changes nothing.
    pub fn hold(&mut self, number: u32) -> Result<(), Fault>
        ensures below { self.new.below ≡ self.old.below }
        ensures held { self.new.held.items ≡ hold_after self.old.held.items number }
        ensures answer { result ≡ hold_answer self.old.held.items number }
    {
        if self.holds(number as usize) {
            return Ok(());
        }
        self.held
            .try_push(number)
            .map_err(|_| Refusal::LayerFull.found_by(Layer::Source, 0, 0))
    }
}

#[tactic(auto, using(crate::specs::Masks::layered_at, crate::specs::Masks::masked_length))]
impl<S: ModuleSource> ModuleSource for ExternalLayer<S> {
    ghost meaning = { λ s. layered s.held.items (S.ModuleSource.meaning s.below) };

    ghost proper = { λ s. layered_proper s.held.items (S.ModuleSource.meaning s.below) (S.ModuleSource.proper s.below) };

    fn module_count(&self) -> usize {
        self.below.module_count()
    }

    fn runtime(&self) -> u32 {
        self.below.runtime()
    }

    fn module(&self, m: usize) -> Module {
        if self.holds(m) {
            Module::External
        } else {
            self.below.module(m)
        }
    }

    fn record_count(&self, m: usize) -> usize {
        if self.holds(m) {
            0
        } else {
            self.below.record_count(m)
        }
    }

    fn record(&self, m: usize, k: usize) -> ImportRecord {
        if self.holds(m) {
            no_record()
        } else {
            self.below.record(m, k)
        }
    }

    fn look(&self, m: usize, k: usize) -> (ImportKind, Option<u32>) {
        if self.holds(m) {
            (ImportKind::HotAccept, None)
        } else {
            self.below.look(m, k)
        }
    }
}
