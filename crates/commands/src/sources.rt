// What a file holds, as a source.
ghost use Rattle.std.specs.Prelude.{◌≡◌, MatchResult};
ghost use Rattle.commands.specs.Sources.{held_verdict, held_meaning, open_meaning, open_proper};

use card::{CardSource, check_card};
use faults::Fault;
use row_source::{RowSource, check_rows};
use source::{ImportKind, ImportRecord, Module, ModuleSource};
use table::Table;

/// What a file holds: rows that were written as a text table, or the image of a card.
#[derive(Drop)]
pub enum Contents {
    Rows(Table),
    Image(Vec<u8>),
}

/// A source of either kind, which reads what a file holds in place.
// No `dyn`: whoever is handed a source is promised things by its type's meaning.
#[derive(Clone, Copy)]
pub enum OpenSource<'a> {
    Rows(RowSource<'a>),
    Card(CardSource<'a>),
}

impl Contents {
    /// The first fault of what the file holds, if there is one.
    pub fn check(&self) -> Result<(), Fault>
        ensures { result ≡ held_verdict self.now }
    {
        match self {
            Contents::Rows(table) => check_rows(table.modules.as_slice(), table.records.as_slice()),
            Contents::Image(image) => check_card(image.as_slice()),
        }
    }

    /// What the check refuses opens as a source of no modules.
    pub fn open(&self) -> OpenSource<'_>
        ensures { open_meaning result ≡ held_meaning self.now }
    {
        match self {
            Contents::Rows(table) => OpenSource::Rows(RowSource::open(
                table.runtime,
                table.modules.as_slice(),
                table.records.as_slice(),
            )),
            Contents::Image(image) => OpenSource::Card(CardSource::open(image.as_slice())),
        }
    }

    /// The source that the file holds, or its first fault.
    pub fn checked(&self) -> Result<OpenSource<'_>, Fault>
        ensures { MatchResult result (λ source. (held_verdict self.now ≡ Ok tt) × (open_meaning source ≡ held_meaning self.now)) (λ fault. held_verdict self.now ≡ Err fault) }
    {
        self.check()?;
        Ok(self.open())
    }
}

impl<'a> ModuleSource for OpenSource<'a> {
    ghost meaning = { open_meaning };

    ghost proper = { open_proper };

    fn module_count(&self) -> usize {
        match self {
            OpenSource::Rows(source) => source.module_count(),
            OpenSource::Card(source) => source.module_count(),
        }
    }

    fn runtime(&self) -> u32 {
        match self {
            OpenSource::Rows(source) => source.runtime(),
            OpenSource::Card(source) => source.runtime(),
        }
    }

    fn module(&self, m: usize) -> Module {
        match self {
            OpenSource::Rows(source) => source.module(m),
            OpenSource::Card(source) => source.module(m),
        }
    }

    fn record_count(&self, m: usize) -> usize {
        match self {
            OpenSource::Rows(source) => source.record_count(m),
            OpenSource::Card(source) => source.record_count(m),
        }
    }

    fn record(&self, m: usize, k: usize) -> ImportRecord {
        match self {
            OpenSource::Rows(source) => source.record(m, k),
            OpenSource::Card(source) => source.record(m, k),
        }
    }

    fn look(&self, m: usize, k: usize) -> (ImportKind, Option<u32>) {
        match self {
            OpenSource::Rows(source) => source.look(m, k),
            OpenSource::Card(source) => source.look(m, k),
        }
    }
}
