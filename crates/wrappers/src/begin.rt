// Rows as a link begins with them.
ghost use Rattle.std.specs.Prelude.{◌≡◌, ◌≤◌, length};
ghost use Rattle.source.specs.Meaning.{count_of};
ghost use Rattle.marks.specs.Kinds.{kind_scanned};
ghost use Rattle.marks.specs.Passes.{BeginDid};

use marks::{Mark, MarkRow, write_front};
use source::{ExportsKind, Module, ModuleSource};

fn scanned_kind(module: Module) -> ExportsKind
    ensures { result ≡ kind_scanned «module» }
{
    match module {
        Module::External => ExportsKind::None,
        Module::Normal(normal) => normal.scanned,
    }
}

/// The kinds that were scanned, and nothing else settled; rows past the last module stay.
pub fn begin_rows<S: ModuleSource>(source: &S, rows: &mut [MarkRow])
    requires { count_of (S.meaning source.now) ≤ length rows.old }
    ensures { BeginDid (S.meaning source.now) rows.old rows.new }
{
    write_front(
        rows,
        source.module_count(),
        |m, _| Mark::of_kind(scanned_kind(source.module(m))).row(),
    );
}
