// Limits, lengths and the runtime, and then the records.
ghost use Rattle.std.specs.Prelude.{◌≡◌};
ghost use Rattle.lawful.specs.Lawful.{is_esm, work_short, source_verdict};

use crate::records::check_all_records;
use faults::{Fault, Layer, Refusal};
use marks::LinkOptions;
use source::{ExportsKind, MODULE_LIMIT, Module, ModuleSource, count_records};

/// How long the slices are that a call is lent: its marks, and its arrows and shortest other work slice if it works with any.
#[derive(Clone, Copy)]
pub struct Lent {
    pub marks: usize,
    pub work: Option<(usize, usize)>,
}

fn is_esm(module: Module) -> bool
    ensures { result ≡ is_esm «module» }
{
    matches!(module, Module::Normal(normal) if normal.scanned == ExportsKind::Esm)
}

// Fewer arrows than records, or another work slice shorter than the modules.
fn is_work_short(work: Option<(usize, usize)>, modules: usize, records: usize) -> bool
    ensures { result ≡ work_short work modules records }
{
    work.is_some_and(|(arrows, other)| (arrows < records) | (other < modules))
}

/// The first fault of the source under these options and of the slices that are lent, if there is one.
pub fn check_source<S: ModuleSource>(
    source: &S,
    options: LinkOptions,
    lent: Lent,
) -> Result<(), Fault>
    ensures { result ≡ source_verdict options (S.meaning source.now) lent }
{
    let modules = source.module_count();
    if modules > MODULE_LIMIT {
        return Err(Refusal::TooManyModules.found_by(Layer::Link, 0, 0));
    }
    let Some(records) = count_records(source) else {
        return Err(Refusal::TooManyRecords.found_by(Layer::Link, 0, 0));
    };
    if lent.marks < modules {
        return Err(Refusal::MarksTooShort.found_by(Layer::Link, 0, 0));
    }
    if is_work_short(lent.work, modules, records) {
        return Err(Refusal::WorkTooShort.found_by(Layer::Link, 0, 0));
    }
    if !is_esm(source.module(source.runtime() as usize)) {
        return Err(Refusal::RuntimeNotEsm.found_by(Layer::Link, 0, 0));
    }
    check_all_records(source, options)
}
