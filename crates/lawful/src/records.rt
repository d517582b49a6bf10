// The checks of records, in scan order: normal modules by number, each one's records by place, unresolved ones too.
ghost use Rattle.std.specs.Prelude.{◌≡◌};
ghost use Rattle.source.specs.Meaning.{count_of, module_at, records_of};
ghost use Rattle.faults.specs.Faults.{each};
ghost use Rattle.lawful.specs.Lawful.{is_style, past_end, style_of_normal, star_misplaced, runtime_required, record_verdict, records_verdict};

use faults::{Fault, Layer, Refusal};
use marks::LinkOptions;
use source::{ExportsKind, ImportKind, ImportRecord, Module, ModuleSource, NormalModule};

fn is_past_end<S: ModuleSource>(source: &S, target: Option<u32>) -> bool
    ensures { result ≡ past_end (S.meaning source.now) target }
{
    target.is_some_and(|t| t as usize >= source.module_count())
}

fn is_style(kind: ImportKind) -> bool
    ensures { result ≡ is_style kind }
{
    matches!(kind, ImportKind::AtImport | ImportKind::UrlImport)
}

fn is_style_of_normal<S: ModuleSource>(source: &S, record: ImportRecord) -> bool
    ensures { result ≡ style_of_normal (S.meaning source.now) «record» }
{
    let Some(t) = record.target else {
        return false;
    };
    matches!(source.module(t as usize), Module::Normal(_)) && is_style(record.kind)
}

fn is_star_misplaced(importer: NormalModule, record: ImportRecord) -> bool
    ensures { result ≡ star_misplaced importer «record» }
{
    let placed = record.kind == ImportKind::Import && importer.scanned == ExportsKind::Esm;
    record.star && !placed
}

fn is_runtime_required<S: ModuleSource>(
    source: &S,
    options: LinkOptions,
    record: ImportRecord,
) -> bool
    ensures { result ≡ runtime_required options (S.meaning source.now) «record» }
{
    record.target == Some(source.runtime()) && options.acts_as_require(record.kind)
}

// One record of module m.
fn check_record<S: ModuleSource>(
    source: &S,
    options: LinkOptions,
    importer: NormalModule,
    m: usize,
    k: usize,
    record: ImportRecord,
) -> Result<(), Fault>
    ensures { result ≡ record_verdict options (S.meaning source.now) importer m k «record» }
{
    if is_past_end(source, record.target) {
        return Err(Refusal::TargetPastEnd.found_by(Layer::Link, m, k));
    }
    if is_style_of_normal(source, record) {
        return Err(Refusal::StyleImportOfNormal.found_by(Layer::Link, m, k));
    }
    if is_star_misplaced(importer, record) {
        return Err(Refusal::StarMisplaced.found_by(Layer::Link, m, k));
    }
    if is_runtime_required(source, options, record) {
        return Err(Refusal::RuntimeRequired.found_by(Layer::Link, m, k));
    }
    Ok(())
}

fn check_records<S: ModuleSource>(
    source: &S,
    options: LinkOptions,
    importer: NormalModule,
    m: usize,
) -> Result<(), Fault>
    ensures { result ≡ each (record_verdict options (S.meaning source.now) importer m) 0 (records_of (S.meaning source.now) m) }
{
    // A source answers by number.
    for k in 0..source.record_count(m) {
        check_record(source, options, importer, m, k, source.record(m, k))?;
    }
    Ok(())
}

pub fn check_all_records<S: ModuleSource>(source: &S, options: LinkOptions) -> Result<(), Fault>
    ensures { result ≡ records_verdict options (S.meaning source.now) }
{
    // A source answers by number.
    for m in 0..source.module_count() {
        let Module::Normal(importer) = source.module(m) else {
            continue;
        };
        check_records(source, options, importer, m)?;
    }
    Ok(())
}
