// The words of a link stage: modules, their records, and sources of them known by their meaning.
#![tactic(auto)]

ghost use Rattle.std.specs.Prelude.{◌≡◌, ◌<◌, ◌≤◌, MatchOption};
ghost use Rattle.source.specs.Meaning.{Meaning, Proper, count_of, module_at, records_in, record_at, look_at, past_records, record_total};
ghost use Rattle.source.specs.Numbers.{exports_number, import_number, record_limit, ExportsNumbered, ImportNumbered};

/// The most modules that a source may have.
pub const MODULE_LIMIT: usize = 4096;
/// The most records that a source may have, over all its modules.
pub const RECORD_LIMIT: usize = 32768;

/// How a module exports, as far as is known.
// No `Option`: that nothing tells is a kind too, with a number of its own in cards and tables.
#[derive(Clone, Copy, PartialEq, Eq, Debug)]
pub enum ExportsKind {
    /// Neither `import`, `export` nor a use of `module` or `exports` tells.
    None = 0,
    /// `export const speed = 3;`
    Esm = 1,
    /// `module.exports = { speed: 3 };`
    CommonJs = 2,
}

impl From<ExportsKind> for u8 {
    ghost from_gives = { λ kind number. number ≡ exports_number kind };

    fn from(kind: ExportsKind) -> u8 {
        kind as u8
    }
}

/// A number that stands for no kind.
#[derive(Clone, Copy, PartialEq, Eq, Debug)]
pub struct UnknownNumber(pub u8);

impl TryFrom<u8> for ExportsKind {
    type Error = UnknownNumber;

    ghost try_from_gives = { ExportsNumbered };

    fn try_from(number: u8) -> Result<ExportsKind, UnknownNumber> {
        match number {
            0 => Ok(ExportsKind::None),
            1 => Ok(ExportsKind::Esm),
            2 => Ok(ExportsKind::CommonJs),
            _ => Err(UnknownNumber(number)),
        }
    }
}

/// How a record asks for its target.
#[derive(Clone, Copy, PartialEq, Eq, Debug)]
pub enum ImportKind {
    /// `import { speed } from './bar.js';`
    Import = 0,
    /// `require('./bar.js')`
    Require = 1,
    /// `import('./bar.js')`
    DynamicImport = 2,
    /// `@import 'bar.css';`
    AtImport = 3,
    /// `url(bar.png)`
    UrlImport = 4,
    /// `new URL('./bar.png', import.meta.url)`
    NewUrl = 5,
    /// `import.meta.hot.accept('./bar.js')`
    HotAccept = 6,
}

impl From<ImportKind> for u8 {
    ghost from_gives = { λ kind number. number ≡ import_number kind };

    fn from(import: ImportKind) -> u8 {
        import as u8
    }
}

impl TryFrom<u8> for ImportKind {
    type Error = UnknownNumber;

    ghost try_from_gives = { ImportNumbered };

    fn try_from(number: u8) -> Result<ImportKind, UnknownNumber> {
        match number {
            0 => Ok(ImportKind::Import),
            1 => Ok(ImportKind::Require),
            2 => Ok(ImportKind::DynamicImport),
            3 => Ok(ImportKind::AtImport),
            4 => Ok(ImportKind::UrlImport),
            5 => Ok(ImportKind::NewUrl),
            6 => Ok(ImportKind::HotAccept),
            _ => Err(UnknownNumber(number)),
        }
    }
}

/// Where a piece of the script stands. Both numbers are free.
#[derive(Clone, Copy, PartialEq, Eq, Debug)]
pub struct Span {
    pub start: u32,
    pub end: u32,
}

/// A module of the script itself, as it was scanned.
// No `Option<Span>` for its `await`: cards and tables give flag and place each for itself, and both are kept as given.
#[derive(Clone, Copy, PartialEq, Eq, Debug)]
pub struct NormalModule {
    pub scanned: ExportsKind,
    /// Its one export is made only when it is asked for, as a JSON file's.
    pub lazy_export: bool,
    pub top_level_await: bool,
    /// It uses `module` or `exports`.
    pub module_or_exports: bool,
    /// Node.js takes it for ESM by its name or its package.
    pub node_esm: bool,
    pub entry: bool,
    /// Where its first `await` keyword stands.
    pub await_span: Span,
}

/// A module. Of an external one nothing else is known.
// No `Option`: an external module is there, and is named so.
#[derive(Clone, Copy, PartialEq, Eq, Debug)]
pub enum Module {
    External,
    Normal(NormalModule),
}

/// What one place of a module asks of another module.
#[derive(Clone, Copy, PartialEq, Eq, Debug)]
pub struct ImportRecord {
    pub kind: ImportKind,
    /// The module that is meant, below 2^32 - 1, or none where it was not resolved.
    pub target: Option<u32>,
    /// `export * from './bar.js';`
    pub star: bool,
    pub span: Span,
}

/// Whoever holds scanned modules. Asking alters nothing.
pub trait ModuleSource {
    // What the source stands for: the runtime's number, and the modules with their records.
    ghost meaning: { Self → Meaning };

    // That an external module has no records, and that every target is below 2^32 - 1.
    ghost proper: { (x : Self) → Proper (meaning x) };

    fn module_count(&self) -> usize
        ensures { result ≡ count_of (meaning self.now) };

    /// The number of the module that holds the bundler's own helpers.
    fn runtime(&self) -> u32
        ensures { result ≡ (meaning self.now).runtime };

    /// External past the last module.
    fn module(&self, m: usize) -> Module
        ensures { result ≡ module_at (meaning self.now) m };

    /// 0 past the last module.
    fn record_count(&self, m: usize) -> usize
        ensures { result ≡ records_in (meaning self.now) m };

    /// An unresolved `HotAccept` at 0 to 0 without star past the last record.
    fn record(&self, m: usize, k: usize) -> ImportRecord
        ensures { result ≡ record_at (meaning self.now) m k };

    /// The record's kind and target together.
    fn look(&self, m: usize, k: usize) -> (ImportKind, Option<u32>)
        ensures { result ≡ look_at (meaning self.now) m k }
    {
        let read = self.record(m, k);
        (read.kind, read.target)
    }
}

/// What a source answers of a record past the last one.
pub fn no_record() -> ImportRecord
    ensures { result ≡ past_records }
{
    ImportRecord {
        kind: ImportKind::HotAccept,
        target: None,
        star: false,
        span: Span { start: 0, end: 0 },
    }
}

/// A source that is lent is a source. Each question is handed on as it is.
impl<'a, S: ModuleSource> ModuleSource for &'a S {
    ghost meaning = { λ s. S.ModuleSource.meaning s.now };

    ghost proper = { λ s. S.ModuleSource.proper s.now };

    fn module_count(&self) -> usize {
        (**self).module_count()
    }

    fn runtime(&self) -> u32 {
        (**self).runtime()
    }

    fn module(&self, m: usize) -> Module {
        (**self).module(m)
    }

    fn record_count(&self, m: usize) -> usize {
        (**self).record_count(m)
    }

    fn record(&self, m: usize, k: usize) -> ImportRecord {
        (**self).record(m, k)
    }

    fn look(&self, m: usize, k: usize) -> (ImportKind, Option<u32>) {
        (**self).look(m, k)
    }
}

/// How many records all the modules have, if they are within the limit.
pub fn count_records<S: ModuleSource>(source: &S) -> Option<usize>
    ensures { MatchOption result (record_limit < record_total (S.meaning source.now)) (λ n. (n ≡ record_total (S.meaning source.now)) × (n ≤ record_limit)) }
{
    let mut total: usize = 0;
    // A loop: the proof of a `try_fold` over numbers did not close.
    for m in 0..source.module_count() {
        let more = source.record_count(m);
        if more > RECORD_LIMIT - total {
            return None;
        }
        total += more;
    }
    Some(total)
}
