// Sources whose records can be followed.
ghost use Rattle.std.specs.Prelude.{◌≡◌, ◌≤◌};
ghost use Rattle.source.specs.Meaning.{count_of};
ghost use Rattle.ways.specs.Ways.{Targets};

use source::{ImportKind, ImportRecord, Module, ModuleSource};

/// A source of at most 4,096 modules, whose records lead to no other module than these.
pub trait Linkable: ModuleSource {
    ghost small: { (x : Self) → count_of (Self.meaning x) ≤ 4096 };

    ghost targets: { (x : Self) → Targets (Self.meaning x) };
}

/// A source that is known to be linkable.
#[derive(Drop)]
pub struct Checked<'a, S: ModuleSource> {
    source: &'a S,
    ghost small: { count_of (S.ModuleSource.meaning source.now) ≤ 4096 },
    ghost targets: { Targets (S.ModuleSource.meaning source.now) },
}

impl<'a, S: ModuleSource> Checked<'a, S> {
    pub fn new(source: &'a S) -> Checked<'a, S>
        requires small { count_of (S.meaning source.now) ≤ 4096 }
        requires targets { Targets (S.meaning source.now) }
        ensures { result.source.now ≡ source.now }
    {
        Checked { source }
    }
}

impl<'a, S: ModuleSource> ModuleSource for Checked<'a, S> {
    ghost meaning = { λ s. S.ModuleSource.meaning s.source.now };

    ghost proper = { λ s. S.ModuleSource.proper s.source.now };

    fn module_count(&self) -> usize {
        self.source.module_count()
    }

    fn runtime(&self) -> u32 {
        self.source.runtime()
    }

    fn module(&self, m: usize) -> Module {
        self.source.module(m)
    }

    fn record_count(&self, m: usize) -> usize {
        self.source.record_count(m)
    }

    fn record(&self, m: usize, k: usize) -> ImportRecord {
        self.source.record(m, k)
    }

    fn look(&self, m: usize, k: usize) -> (ImportKind, Option<u32>) {
        self.source.look(m, k)
    }
}

impl<'a, S: ModuleSource> Linkable for Checked<'a, S> {
    ghost small = { λ s. s.small };

    ghost targets = { λ s. s.targets };
}
