// Plain rows in the caller's slices.
ghost use Rattle.std.specs.Prelude.{◌≡◌};
ghost use Rattle.marks.specs.Names.{helper_text};

use source::{ExportsKind, Span};

/// How a module is wrapped.
// No `Option`: unwrapped is the first of three answers, and rows, lines and tables name each.
#[derive(Clone, Copy, PartialEq, Eq, Debug)]
pub enum WrapKind {
    None,
    /// `var require_bar = __commonJS((exports, module) => { .. });`
    Cjs,
    /// `var init_bar = __esm(() => { .. });`
    Esm,
}

/// What is settled of a module so far. A row may hold anything; `Mark::read` says how it reads.
#[derive(Clone, Copy, PartialEq, Eq, Debug)]
pub struct MarkRow {
    pub kind: ExportsKind,
    pub wrap: WrapKind,
    /// Some `require` runs it.
    pub required: bool,
    /// Its names are known only when it has run.
    pub dynamic: bool,
    /// It waits for an `await`, its own or an import's.
    pub awaiting: bool,
    /// The entries that lead to it, rank r as bit r; `EntrySet` reads them.
    pub entries: u64,
}

/// A helper of the runtime that makes a wrapper.
#[derive(Clone, Copy, PartialEq, Eq, Debug)]
pub enum Helper {
    CommonJs,
    CommonJsMin,
    Esm,
    EsmMin,
}

impl Helper {
    // By cases: a word is no number that a discriminant could be.
    pub fn text(self) -> &'static str
        ensures { result.now ≡ helper_text self }
    {
        match self {
            Helper::CommonJs => "__commonJS",
            Helper::CommonJsMin => "__commonJSMin",
            Helper::Esm => "__esm",
            Helper::EsmMin => "__esmMin",
        }
    }
}

/// A wrapper to be written: `var require_bar = __commonJS(..);`
#[derive(Clone, Copy, PartialEq, Eq, Debug)]
pub struct WrapperRow {
    pub module: u32,
    pub wrap: WrapKind,
    pub helper: Helper,
    /// Its module runs at the first call of `init_bar()`.
    pub eval: bool,
}

/// A `require` of a module that awaits, and the `await` that it comes to.
#[derive(Clone, Copy, PartialEq, Eq, Debug)]
pub struct AwaitRow {
    pub importer: u32,
    pub record: u32,
    pub source: u32,
    pub span: Span,
    pub await_span: Span,
}
