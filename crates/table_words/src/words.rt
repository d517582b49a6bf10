// The words of the text form, written and read.
ghost use Rattle.std.specs.Prelude.{◌≡◌, ℕ, List};
ghost use Rattle.table_words.specs.Words.{exports_word, import_word, flag_word, yes_no, Named};

use source::{ExportsKind, ImportKind};

/// What goes by a word: the word is written and read.
pub trait Worded: Sized {
    ghost word: { Self → List ℕ };

    fn word(self) -> &'static str
        ensures { result.now ≡ word self };

    /// The value whose word it is, or none where it is no value's.
    fn from_word(text: &str) -> Option<Self>
        ensures { Named word text.now result };
}

/// What a `module` line may say of its module.
#[derive(Clone, Copy, PartialEq, Eq, Debug)]
pub enum Flag {
    Lazy,
    Await,
    Module,
    Node,
    Entry,
}

impl Worded for ExportsKind {
    ghost word = { exports_word };

    fn word(self) -> &'static str {
        match self {
            ExportsKind::None => "none",
            ExportsKind::Esm => "esm",
            ExportsKind::CommonJs => "cjs",
        }
    }

    fn from_word(text: &str) -> Option<ExportsKind> {
        match text {
            "none" => Some(ExportsKind::None),
            "esm" => Some(ExportsKind::Esm),
            "cjs" => Some(ExportsKind::CommonJs),
            _ => None,
        }
    }
}

impl Worded for ImportKind {
    ghost word = { import_word };

    fn word(self) -> &'static str {
        match self {
            ImportKind::Import => "import",
            ImportKind::Require => "require",
            ImportKind::DynamicImport => "dynamic-import",
            ImportKind::AtImport => "at-import",
            ImportKind::UrlImport => "url-import",
            ImportKind::NewUrl => "new-url",
            ImportKind::HotAccept => "hot-accept",
        }
    }

    fn from_word(text: &str) -> Option<ImportKind> {
        match text {
            "import" => Some(ImportKind::Import),
            "require" => Some(ImportKind::Require),
            "dynamic-import" => Some(ImportKind::DynamicImport),
            "at-import" => Some(ImportKind::AtImport),
            "url-import" => Some(ImportKind::UrlImport),
            "new-url" => Some(ImportKind::NewUrl),
            "hot-accept" => Some(ImportKind::HotAccept),
            _ => None,
        }
    }
}

impl Worded for Flag {
    ghost word = { flag_word };

    fn word(self) -> &'static str {
        match self {
            Flag::Lazy => "lazy",
            Flag::Await => "await",
            Flag::Module => "module",
            Flag::Node => "node",
            Flag::Entry => "entry",
        }
    }

    fn from_word(text: &str) -> Option<Flag> {
        match text {
            "lazy" => Some(Flag::Lazy),
            "await" => Some(Flag::Await),
            "module" => Some(Flag::Module),
            "node" => Some(Flag::Node),
            "entry" => Some(Flag::Entry),
            _ => None,
        }
    }
}

impl Worded for bool {
    ghost word = { yes_no };

    fn word(self) -> &'static str {
        if self { "yes" } else { "no" }
    }

    fn from_word(text: &str) -> Option<bool> {
        match text {
            "yes" => Some(true),
            "no" => Some(false),
            _ => None,
        }
    }
}
