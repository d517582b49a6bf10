// A mark, which keeps the rule on wrappers. Marks are made from rows and written back as rows.
ghost use Rattle.std.specs.Prelude.{◌≡◌, true};
ghost use Rattle.marks.specs.declared.rows.MarkRow.{MarkRow};
ghost use Rattle.marks.specs.Rules.{agrees, is_wrapped, wrap_of, cleared, read_row, marked_row, with_required, with_dynamic, with_awaiting, with_entries};

use crate::rows::{MarkRow, WrapKind};
use source::ExportsKind;
use std::marker::Model;

/// A row as it reads: wrapped as CommonJS only where its kind is CommonJS, and as ESM only where it is not.
#[derive(Clone, Copy)]
pub struct Mark {
    row: MarkRow,
}

// A mark stands for its row.
impl Model for Mark {
    ghost Value = { MarkRow };

    ghost view = { λ m. m.row };

    ghost invariant = { λ m. agrees m.row.kind m.row.wrap ≡ true };

    ghost inverse = { λ r. record { row = r } };
}

// By cases, as a reader would list them.
fn agree(kind: ExportsKind, wrap: WrapKind) -> bool
    ensures { result ≡ agrees kind wrap }
{
    match (kind, wrap) {
        (_, WrapKind::None) => true,
        (ExportsKind::CommonJs, WrapKind::Cjs) => true,
        (ExportsKind::CommonJs, WrapKind::Esm) => false,
        (_, WrapKind::Cjs) => false,
        (_, WrapKind::Esm) => true,
    }
}

fn wrap_of(kind: ExportsKind) -> WrapKind
    ensures { result ≡ wrap_of kind }
{
    match kind {
        ExportsKind::CommonJs => WrapKind::Cjs,
        ExportsKind::None | ExportsKind::Esm => WrapKind::Esm,
    }
}

impl Mark {
    /// The mark of a kind, with the rest cleared.
    pub fn of_kind(kind: ExportsKind) -> Mark
        ensures { result ≡ cleared kind }
    {
        Mark {
            row: MarkRow {
                kind,
                wrap: WrapKind::None,
                required: false,
                dynamic: false,
                awaiting: false,
                entries: 0,
            },
        }
    }

    /// How a row reads: unwrapped where it breaks the rule.
    // No `From`: what breaks the rule is not kept.
    pub fn read(row: MarkRow) -> Mark
        ensures { result ≡ read_row row }
    {
        let wrap = if agree(row.kind, row.wrap) {
            row.wrap
        } else {
            WrapKind::None
        };
        Mark {
            row: MarkRow { wrap, ..row },
        }
    }

    /// The row that it is written back as.
    pub fn row(self) -> MarkRow
        ensures { result ≡ self }
    {
        self.row
    }

    pub fn kind(self) -> ExportsKind
        ensures { result ≡ self.kind }
    {
        self.row.kind
    }

    pub fn wrap(self) -> WrapKind
        ensures { result ≡ self.wrap }
    {
        self.row.wrap
    }

    pub fn required(self) -> bool
        ensures { result ≡ self.required }
    {
        self.row.required
    }

    pub fn is_wrapped(self) -> bool
        ensures { result ≡ is_wrapped self.wrap }
    {
        self.row.wrap != WrapKind::None
    }

    /// The mark with this kind, wrapped by it or not.
    pub fn marked(self, kind: ExportsKind, wrapped: bool) -> Mark
        ensures { result ≡ marked_row self kind wrapped }
    {
        let wrap = if wrapped {
            wrap_of(kind)
        } else {
            WrapKind::None
        };
        Mark {
            row: MarkRow {
                kind,
                wrap,
                ..self.row
            },
        }
    }

    // One method for each field: a closure over the row could break the rule on wrappers.
    pub fn with_required(self, required: bool) -> Mark
        ensures { result ≡ with_required self required }
    {
        Mark {
            row: MarkRow {
                required,
                ..self.row
            },
        }
    }

    pub fn with_dynamic(self, dynamic: bool) -> Mark
        ensures { result ≡ with_dynamic self dynamic }
    {
        Mark {
            row: MarkRow {
                dynamic,
                ..self.row
            },
        }
    }

    pub fn with_awaiting(self, awaiting: bool) -> Mark
        ensures { result ≡ with_awaiting self awaiting }
    {
        Mark {
            row: MarkRow {
                awaiting,
                ..self.row
            },
        }
    }

    pub fn with_entries(self, entries: u64) -> Mark
        ensures { result ≡ with_entries self entries }
    {
        Mark {
            row: MarkRow {
                entries,
                ..self.row
            },
        }
    }
}
