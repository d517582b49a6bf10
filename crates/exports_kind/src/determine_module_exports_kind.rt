// Records settle the kinds of the modules that they are resolved to; what is required is wrapped, and CommonJS importers are.
ghost use Rattle.std.specs.Prelude.{◌≡◌, ◌≤◌, length};
ghost use Rattle.source.specs.Meaning.{count_of};
ghost use Rattle.marks.specs.Kinds.{or_else, makes, importer_rule};
ghost use Rattle.marks.specs.Passes.{KindsDid};
ghost use Rattle.exports_kind.specs.Steps.{after_record, after_importer, ReadUpTo};

use marks::{LinkOptions, Mark, MarkRow, OutputFormat, write_front};
use source::{ExportsKind, ImportKind, Module, ModuleSource, NormalModule};

// The first kind that is known. `Option::or` has another type: `None` is a kind here.
fn or_else(kind: ExportsKind, other: ExportsKind) -> ExportsKind
    ensures { result ≡ or_else kind other }
{
    match kind {
        ExportsKind::None => other,
        ExportsKind::Esm | ExportsKind::CommonJs => kind,
    }
}

// What a record of this kind makes of a module of no kind: `import` asks for ESM, `require` for CommonJS.
fn promoted_kind(options: LinkOptions, importee: NormalModule, kind: ImportKind) -> ExportsKind
    ensures { result ≡ makes options importee kind }
{
    match kind {
        ImportKind::Import if !importee.lazy_export => ExportsKind::Esm,
        ImportKind::Require => ExportsKind::CommonJs,
        ImportKind::DynamicImport if options.splitting_off => ExportsKind::CommonJs,
        _ => ExportsKind::None,
    }
}

// What is required is wrapped by its kind: `var require_bar = __commonJS(..);` or `var init_bar = __esm(..);`
fn mark_importee(options: LinkOptions, importee: NormalModule, kind: ImportKind, mark: Mark) -> Mark
    ensures { result ≡ after_record options importee kind mark }
{
    let promoted = or_else(mark.kind(), promoted_kind(options, importee, kind));
    mark.marked(promoted, options.acts_as_require(kind) || mark.is_wrapped())
}

// Whether a CommonJS importer is wrapped. An entry is not where the bundle's own `module` and `exports` serve it, or it uses neither.
fn importer_rule(options: LinkOptions, importer: NormalModule) -> bool
    ensures { result ≡ importer_rule options importer }
{
    let by_format = match options.format {
        OutputFormat::Esm => true,
        OutputFormat::Cjs => false,
        OutputFormat::Iife | OutputFormat::Umd => importer.module_or_exports,
    };
    !importer.entry || by_format
}

// The importer rule is for CommonJS modules alone, and looks at the kind after the module's own records.
fn mark_importer(options: LinkOptions, importer: NormalModule, mark: Mark) -> Mark
    ensures { result ≡ after_importer options importer mark }
{
    match mark.kind() {
        ExportsKind::CommonJs => mark.marked(
            ExportsKind::CommonJs,
            importer_rule(options, importer) || mark.is_wrapped(),
        ),
        ExportsKind::None | ExportsKind::Esm => mark,
    }
}

// Each module's row is written as it reads, so that it keeps the rule on wrappers.
fn read_rows<S: ModuleSource>(source: &S, rows: &mut [MarkRow])
    requires { count_of (S.meaning source.now) ≤ length rows.old }
    ensures { ReadUpTo (count_of (S.meaning source.now)) rows.old rows.new }
{
    write_front(rows, source.module_count(), |_, row| Mark::read(row).row());
}

/// The first counting record in scan order settles the kind of a module of no kind; later ones leave it.
/// Wrapped are the normal modules that are required, and CommonJS importers under the importer rule.
pub fn determine_exports_kinds<S: ModuleSource>(
    source: &S,
    options: LinkOptions,
    rows: &mut [MarkRow],
)
    requires { count_of (S.meaning source.now) ≤ length rows.old }
    ensures { KindsDid (S.meaning source.now) options rows.old rows.new }
{
    read_rows(source, rows);
    // Rows are read and written at the targets of records, in scan order, so that no iterator over them serves.
    for m in 0..source.module_count() {
        let Module::Normal(importer) = source.module(m) else {
            continue;
        };
        for k in 0..source.record_count(m) {
            let (kind, target) = source.look(m, k);
            let Some(t) = target else {
                continue;
            };
            let t = t as usize;
            let Module::Normal(importee) = source.module(t) else {
                continue;
            };
            let mark = mark_importee(options, importee, kind, Mark::read(rows[t]));
            rows[t] = mark.row();
        }
        let mark = mark_importer(options, importer, Mark::read(rows[m]));
        rows[m] = mark.row();
    }
}
